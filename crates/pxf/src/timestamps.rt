// Timestamps, for C.
ghost use Rattle.pxf.specs.Timestamps.{TimestampGiven};

use crate::values;

// Judges a run of any bytes: `answer` gets 1, the seconds from 1970-01-01T00:00:00Z and the nanoseconds, or zeros where it is no date.
#[unsafe(no_mangle)]
pub extern "C" fn pxf_timestamp(run: &[u8], answer: &mut [i64; 6]) -> u8
    ensures { TimestampGiven run.now result answer.new }
{
    *answer = values::of_instant(rfc3339::parse::parse(run));
    0
}
