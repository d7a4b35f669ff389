// Answers the questions of the conformance list, which it reads from standard input: it prints each line as it is, and after each `text` what
// `read_text`, `read_token`, `place_of` or `rfc3339::parse::parse` answers, in the list's form, and `end`.
#![tactic(auto)]

mod escaped;

ghost use Rattle.std.specs.Prelude.{◌*◌, ◌≤◌, length};
ghost use Rattle.token.specs.Layout.{record_width, report_width};

use base::answer::Numbered;
use lexer::reading::{Reading, Settings};
use notation::parse;
use notation::stdio::{print, print_ended, print_number, read};
use reading::counts::Counts;
use reading::one::read_token;
use reading::place::place_of;
use reading::refusal::Refusal;
use reading::text::read_text;
use rfc3339::parse::Instant;
use token::layout::{RECORD_WIDTH, REPORT_WIDTH};
use token::place::Place;

// The lengths of buffers that hold the tokens, strings and reports of any text of at most 512 bytes.
const TOKENS: usize = 513 * RECORD_WIDTH;

const STRINGS: usize = 512;

const REPORTS: usize = 512 * REPORT_WIDTH;

// What is asked of a text: its whole reading, the token after a place, the place of an offset, or the instant that it names as a timestamp's run.
#[derive(Clone, Copy)]
enum Asked {
    Whole,
    OneToken(Place),
    PlaceOf(usize),
    Instant,
}

// How long the buffers are that a case asks for.
#[derive(Clone, Copy)]
struct Room {
    tokens: usize,
    strings: usize,
    reports: usize,
    ghost tokens_fit: { tokens ≤ 513 * record_width },
    ghost strings_fit: { strings ≤ 512 },
    ghost reports_fit: { reports ≤ 512 * report_width },
}

// How a text is read, what is asked of it, and how long the buffers are.
#[derive(Clone, Copy)]
struct How {
    settings: Settings,
    asked: Asked,
    room: Room,
}

impl How {
    // How a case is read that asks for nothing else.
    fn plain() -> How {
        How {
            settings: Settings {
                mode: Reading::Strict,
                limit: 0,
            },
            asked: Asked::Whole,
            room: Room {
                tokens: TOKENS,
                strings: STRINGS,
                reports: REPORTS,
            },
        }
    }

    // How the text after a line is read. The words of a question differ in their first letters.
    fn after(self, line: &[u8]) -> How {
        match line {
            [b'c', ..] => How::plain(),
            [b'm', ..] => How {
                settings: Settings {
                    mode: mode_in(line),
                    ..self.settings
                },
                ..self
            },
            [b'l', ..] => How {
                settings: Settings {
                    limit: parse::digits(line),
                    ..self.settings
                },
                ..self
            },
            [b'f', ..] => How {
                asked: Asked::OneToken(place_in(line)),
                ..self
            },
            [b'a', ..] => How {
                asked: Asked::PlaceOf(parse::digits(line)),
                ..self
            },
            [b'i', ..] => How {
                asked: Asked::Instant,
                ..self
            },
            [b'r', ..] => How {
                room: room_in(line),
                ..self
            },
            _ => self,
        }
    }
}

// The words of the two modes differ in their first letters.
fn mode_in(line: &[u8]) -> Reading {
    if line.get(5) == Some(&b't') {
        Reading::Tolerant
    } else {
        Reading::Strict
    }
}

// The three numbers of a line.
fn three_in(line: &[u8]) -> [usize; 3] {
    let (_, rest) = parse::split_word(line);
    let (a, rest) = parse::split_word(rest);
    let (b, c) = parse::split_word(rest);
    [parse::digits(a), parse::digits(b), parse::digits(c)]
}

fn place_in(line: &[u8]) -> Place {
    let [offset, line, column] = three_in(line);
    Place {
        offset,
        line,
        column,
    }
}

fn room_in(line: &[u8]) -> Room {
    let [tokens, strings, reports] = three_in(line);
    Room {
        tokens: tokens.min(TOKENS),
        strings: strings.min(STRINGS),
        reports: reports.min(REPORTS),
    }
}

// A line: a word with the blank after it, and numbers. Of these there are many, so that each goes out with the byte after it.
fn print_row(word: &[u8], row: &[i64]) {
    print(word);
    if let [front @ .., last] = row {
        for n in front {
            print_ended(*n, b' ');
        }
        print_ended(*last, b'\n');
    }
}

fn print_refusal(r: Refusal) {
    let offset = match r {
        Refusal::NotUtf8(at) => at,
        _ => 0,
    };
    print(b"refused ");
    print_number(r.number());
    print(b" ");
    print_number(offset);
    print(b"\n");
}

// Prints these many tokens, string bytes and reports.
fn print_counts(tokens: &[i64], strings: &[u8], reports: &[i64], counts: Counts)
    requires { (counts.tokens * record_width ≤ length tokens.now) × (counts.strings ≤ length strings.now) × (counts.reports * report_width ≤ length reports.now) }
{
    for record in tokens[..counts.tokens * RECORD_WIDTH].chunks_exact(RECORD_WIDTH) {
        print_row(b"token ", record);
    }
    print(b"strings ");
    escaped::print_bytes(&strings[..counts.strings]);
    print(b"\n");
    for report in reports[..counts.reports * REPORT_WIDTH].chunks_exact(REPORT_WIDTH) {
        print_row(b"report ", report);
    }
}

fn print_place(place: Place) {
    print(b"place ");
    print_number(place.offset);
    print(b" ");
    print_number(place.line);
    print(b" ");
    print_number(place.column);
    print(b"\n");
}

fn print_date(seconds: i64, nanos: u32) {
    print(b"date ");
    print_ended(seconds, b' ');
    print_number(nanos);
    print(b"\n");
}

// Prints what is answered of a text, to which buffers of the lengths asked for are lent.
fn answer(text: &[u8], how: How) {
    let settings = how.settings;
    let mut tokens = [0i64; TOKENS];
    let mut strings = [0u8; STRINGS];
    let mut reports = [0i64; REPORTS];
    let tokens = &mut tokens[..how.room.tokens];
    let strings = &mut strings[..how.room.strings];
    let reports = &mut reports[..how.room.reports];
    match how.asked {
        Asked::Whole => match read_text(text, settings, tokens, strings, reports) {
            Ok(counts) => print_counts(tokens, strings, reports, counts),
            Err(refusal) => print_refusal(refusal),
        },
        Asked::OneToken(place) => {
            match read_token(text, place, settings, tokens, strings, reports) {
                Ok(one) => {
                    // what is read of one token has no count of tokens, and is no `Counts` itself
                    let counts = Counts {
                        tokens: 1,
                        strings: one.strings,
                        reports: one.reports,
                    };
                    print_counts(tokens, strings, reports, counts);
                    print_place(one.end);
                }
                Err(refusal) => print_refusal(refusal),
            }
        }
        Asked::PlaceOf(offset) => match place_of(text, offset) {
            Ok(place) => print_place(place),
            Err(refusal) => print_refusal(refusal),
        },
        Asked::Instant => match rfc3339::parse::parse(text) {
            Some(Instant { seconds, nanos }) => print_date(seconds, nanos),
            None => print(b"no date\n"),
        },
    }
}

// Answers a line that has a text.
fn answer_line(line: &[u8], how: How) {
    let (_, written) = parse::split_word(line);
    let mut space = [0u8; 512];
    answer(escaped::read_bytes(written, &mut space), how);
    print(b"end\n");
}

fn replay(questions: &[u8]) {
    let mut how = How::plain();
    for line in questions.split_inclusive(|b| *b == b'\n') {
        how = how.after(line);
        print(line);
        if let [b't', ..] = line {
            answer_line(line, how);
        }
    }
}

fn main() {
    let mut questions = [0u8; 524288];
    replay(read(&mut questions));
}
