// Leaf functions exported for the comparison with the Rust.
#![tactic(auto)]

ghost use Rattle.std.specs.Prelude.{◌≡◌};
ghost use Rattle.go_duration.specs.Parse.{parse_of};
ghost use Rattle.utf8.specs.Grammar.{valid_to};
ghost use Rattle.exports.specs.Durations.{verdict_of, value_after};

use utf8::check::Utf8Error;

// The offset of the first byte of the first ill-formed sequence, or the length of a text that has none. Both have 64 bits: `try_from` could fail.
#[unsafe(no_mangle)]
pub extern "C" fn utf8_check(text: &[u8]) -> u64
    ensures { result ≡ valid_to text.now }
{
    match utf8::check::check(text) {
        Ok(()) => text.len() as u64,
        Err(Utf8Error { valid_up_to }) => valid_up_to as u64,
    }
}

// 0, and the nanoseconds in `value`, where the run is a duration; else 1, and `value` as it was.
#[unsafe(no_mangle)]
pub extern "C" fn duration_parse(run: &[u8], value: &mut [i64; 1]) -> u8
    ensures { (result ≡ verdict_of (parse_of run.now)) × (value.new ≡ value_after (parse_of run.now) value.old) }
{
    let Some(nanos) = go_duration::parse::parse(run) else {
        return 1;
    };
    value[0] = nanos;
    0
}
