// Standard input and standard output.
ghost use Rattle.std.specs.Prelude.{◌≡◌, [], ◌∷◌, ◌++◌, ◌≤◌, length};

use itoa::{Buffer, Integer};

// The descriptors of the two.
const STDIN_FILENO: i32 = 0;

const STDOUT_FILENO: i32 = 1;

// Reads until the buffer is full or the input ends, and gives what was read.
pub fn read(buffer: &mut [u8]) -> &[u8]
    ensures { length result.now ≤ length buffer.old }
{
    let n = io::read_full(STDIN_FILENO, buffer);
    &buffer[..n]
}

pub fn print(s: &[u8]) {
    io::write_all(STDOUT_FILENO, s);
}

// Prints a number in decimal.
pub fn print_number<I: Integer>(n: I) {
    let mut buffer = Buffer::new();
    print(buffer.format(n).as_bytes());
}

// The longest text of a number, with a byte after it.
const ENDED: usize = 41;

// The text of a number and the byte after it, in a lent buffer.
fn ended<I: Integer>(n: I, after: u8, out: &mut [u8; ENDED]) -> &[u8]
    ensures { result.now ≡ I.text n ++ (after ∷ []) }
{
    let mut buffer = Buffer::new();
    let digits = buffer.format(n).as_bytes();
    let end = digits.len();
    out[..end].copy_from_slice(digits);
    out[end] = after;
    &out[..end + 1]
}

// Prints a number and the byte after it by one call, since each call is one of the system.
pub fn print_ended<I: Integer>(n: I, after: u8) {
    let mut out = [0; ENDED];
    print(ended(n, after, &mut out));
}

// Prints a byte as two hexadecimal digits.
pub fn print_hex(b: u8) {
    io::print_hex(STDOUT_FILENO, u64::from(b), 2);
}

// Prints the rest of a line: numbers with a blank before each.
pub fn print_numbers<I: Integer>(numbers: &[I]) {
    for n in numbers {
        print(b" ");
        print_number(*n);
    }
    print(b"\n");
}

// Prints the number and the value of an answer.
pub fn print_answer(number: u8, value: usize) {
    print_number(number);
    print(b" ");
    print_number(value);
}
