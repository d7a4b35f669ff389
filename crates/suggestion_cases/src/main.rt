// Answers the stored questions for suggestions, one a line of standard input:
//   ROOM HEX   suggests for the run of these bytes, at most 66, into a list of ROOM numbers, at most 2,400, all 77 before
// For each it prints a line: the answer's number and value, and the numbers of the list after the call.
#![tactic(auto)]

use base::answer::{number, value};
use notation::parse;
use notation::stdio::{print_answer, print_numbers, read};

fn one_case(line: &[u8]) {
    let (room, run) = parse::split_word(line);
    let mut space = [0u8; 66];
    let run = parse::bytes(run, &mut space);
    let mut numbers = [77i64; 2400];
    let list = &mut numbers[..parse::digits(room).min(2400)];
    let r = suggest::call::suggest_durations(run, list);
    print_answer(number(r), value(r));
    print_numbers(list);
}

fn main() {
    let mut text = [0u8; 65536];
    for line in read(&mut text).split_inclusive(|b| *b == b'\n') {
        one_case(line);
    }
}
