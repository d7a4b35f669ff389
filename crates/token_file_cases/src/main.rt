// Runs the writer and the reader of token files over stored cases, one a line:
//   w COUNT ROOM NUMBER NUMBER ..   writes the records of these numbers into a buffer of ROOM bytes, all 170 before
//   r ROOM HEX                      reads the file of these bytes into a slice of ROOM numbers, all 77 before
// For each it prints the answer's number and value, and the buffer after the call.
#![tactic(auto)]

use base::answer::{number, value};
use notation::parse;
use notation::stdio::{print, print_answer, print_hex, print_numbers, read};

fn print_bytes(s: &[u8]) {
    print(b" ");
    for b in s {
        print_hex(*b);
    }
    print(b"\n");
}

fn write_case(line: &[u8]) {
    let (_, rest) = parse::split_word(line);
    let (count, rest) = parse::split_word(rest);
    let (room, rest) = parse::split_word(rest);
    let mut numbers = [0i64; 256];
    let records = parse::numbers(rest, &mut numbers);
    let mut space = [170u8; 256];
    let out = &mut space[..parse::digits(room).min(256)];
    let r = token_file::write::write_token_file(records, parse::digits(count), out);
    print_answer(number(r), value(r));
    print_bytes(out);
}

fn read_case(line: &[u8]) {
    let (_, rest) = parse::split_word(line);
    let (room, file) = parse::split_word(rest);
    let mut space = [0u8; 256];
    let file = parse::bytes(file, &mut space);
    let mut numbers = [77i64; 256];
    let tokens = &mut numbers[..parse::digits(room).min(256)];
    let r = token_file::read::read_token_file(file, tokens);
    print_answer(number(r), value(r));
    print_numbers(tokens);
}

fn main() {
    let mut text = [0u8; 262144];
    for line in read(&mut text).split_inclusive(|b| *b == b'\n') {
        match line {
            [b'w', ..] => write_case(line),
            _ => read_case(line),
        }
    }
}
