// Texts, for C.
ghost use Rattle.std.specs.Prelude.{◌≡◌};
ghost use Rattle.pxf.specs.Texts.{reading_of, TextRead, TokenRead, PlaceGiven};
ghost use Rattle.pxf.specs.Helpers.{settings_of};

use crate::values;
use lexer::reading::{Reading, Settings};
use token::place::Place;

// The reading of a number: 1 is tolerant, any other strict. No `From`: neither the type nor the trait is declared here.
fn reading_of(mode: u8) -> Reading
    ensures { result ≡ reading_of mode }
{
    if mode == 1 {
        return Reading::Tolerant;
    }
    Reading::Strict
}

// How C asks that a text is read.
fn settings(mode: u8, limit: u64) -> Settings
    ensures { result ≡ settings_of mode limit }
{
    Settings {
        mode: reading_of(mode),
        limit: limit as usize,
    }
}

// Reads a whole text: `answer` gets the counts of tokens, string bytes and reports.
#[unsafe(no_mangle)]
pub extern "C" fn pxf_read_text(
    text: &[u8],
    mode: u8,
    limit: u64,
    tokens: &mut [i64],
    strings: &mut [u8],
    reports: &mut [i64],
    answer: &mut [i64; 6],
) -> u8
    ensures { TextRead mode limit text.now tokens.old strings.old reports.old result tokens.new strings.new reports.new answer.new }
{
    let how = settings(mode, limit);
    let r = reading::text::read_text(text, how, tokens, strings, reports);
    values::give(r, answer)
}

// Reads the token after a place: `answer` gets 1, the counts of string bytes and reports, and the place at the token's end.
#[unsafe(no_mangle)]
pub extern "C" fn pxf_read_token(
    text: &[u8],
    offset: u64,
    line: u64,
    column: u64,
    mode: u8,
    limit: u64,
    tokens: &mut [i64],
    strings: &mut [u8],
    reports: &mut [i64],
    answer: &mut [i64; 6],
) -> u8
    ensures { TokenRead offset line column mode limit text.now tokens.old strings.old reports.old result tokens.new strings.new reports.new answer.new }
{
    let how = settings(mode, limit);
    let place = Place {
        offset: offset as usize,
        line: line as usize,
        column: column as usize,
    };
    let r = reading::one::read_token(text, place, how, tokens, strings, reports);
    values::give(r, answer)
}

// The place of an offset: `answer` gets its offset, line and column.
#[unsafe(no_mangle)]
pub extern "C" fn pxf_place_of(text: &[u8], offset: u64, answer: &mut [i64; 6]) -> u8
    ensures { PlaceGiven offset text.now result answer.new }
{
    let r = reading::place::place_of(text, offset as usize);
    values::give(r, answer)
}
