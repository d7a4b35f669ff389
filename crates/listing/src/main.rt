// Prints the listing of the text on standard input, which has at most 8,192 bytes.
#![tactic(auto)]

ghost use Rattle.std.specs.Prelude.{◌≤◌, length};
ghost use Rattle.listing_lines.specs.Listing.{Prints, Suffice};

use listing_lines::list;
use notation::stdio::{print, read};
use token::layout::RECORD_WIDTH;

// The lengths of buffers that hold the tokens of any text of at most 8,192 bytes and their lines, of which none has more than 48 bytes.
const TOKENS: usize = 8193 * RECORD_WIDTH;

const OUT: usize = 8193 * 48;

// Lists a text in `out`, and gives how many bytes it wrote. The buffers suffice, so none is short.
fn fill(
    text: &[u8],
    tokens: &mut [i64],
    strings: &mut [u8],
    reports: &mut [i64],
    out: &mut [u8],
) -> usize
    requires { Suffice (length text.now) (length tokens.old) (length strings.old) (length out.old) }
    ensures { Prints text.now out.old result out.new }
{
    list(text, tokens, strings, reports, out).unwrap()
}

fn print_listing(text: &[u8])
    requires { length text.now ≤ 8192 }
{
    let mut tokens = [0i64; TOKENS];
    let mut strings = [0u8; 8192];
    let mut reports = [0i64; 0];
    let mut out = [0u8; OUT];
    let n = fill(text, &mut tokens, &mut strings, &mut reports, &mut out);
    print(&out[..n]);
}

fn main() {
    let mut text = [0u8; 8192];
    let text = read(&mut text);
    let mut more = [0u8; 1];
    if text.len() == 8192 && !read(&mut more).is_empty() {
        print(b"too long\n");
    } else {
        print_listing(text);
    }
}
