// Bytes as the list writes them: most of printable ASCII as itself, any other byte as a backslash and two hexadecimal digits.
ghost use Rattle.std.specs.Prelude.{◌≤◌, ◌≡◌, length};
ghost use Rattle.cases.specs.Escaped.{is_plain};

use notation::parse::hex_byte;
use notation::stdio::{print, print_hex};

fn is_plain(b: u8) -> bool
    ensures { result ≡ is_plain b }
{
    b.is_ascii_graphic() && b != b'\\'
}

pub fn print_bytes(s: &[u8]) {
    for b in s {
        if is_plain(*b) {
            print(&[*b]);
        } else {
            print(b"\\");
            print_hex(*b);
        }
    }
}

// Stores the bytes that a line writes, up to its newline and as many as there is room for, and gives them.
pub fn read_bytes<'a>(line: &[u8], out: &'a mut [u8]) -> &'a [u8]
    ensures { length result.now ≤ length out.old }
{
    let mut rest = line;
    for k in 0..out.len() {
        let (b, tail) = match rest {
            [b'\n', ..] | [] | [b'\\'] | [b'\\', _] => return &out[..k],
            [b'\\', high, low, tail @ ..] => (hex_byte(*high, *low), tail),
            [b, tail @ ..] => (*b, tail),
        };
        out[k] = b;
        rest = tail;
    }
    out
}
