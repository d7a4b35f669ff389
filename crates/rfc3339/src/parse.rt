// The instant of a run.
ghost use Rattle.std.specs.Prelude.{◌≡◌};
ghost use Rattle.rfc3339.specs.Instant.{date_of};
ghost use Rattle.rfc3339.specs.Helpers.{SecondsFit, unix_seconds};

use crate::rules::{FullTime, full_date, partial_time};
use base::peek;

// A date-time: the whole seconds from 1970-01-01T00:00:00Z, rounded down, and the nanoseconds after them.
#[derive(Clone, Copy, PartialEq, Eq, Debug)]
pub struct Instant {
    pub seconds: i64,
    pub nanos: u32,
}

// The seconds from 0000-01-01T00:00:00Z to 1970-01-01T00:00:00Z.
const EPOCH: i64 = 62167219200;

// The seconds from 1970-01-01T00:00:00Z, `local` being those of the date and time as written from 0000-01-01T00:00:00 on;
// the cast loses nothing, as is required.
fn unix_seconds(local: usize, offset: i64) -> i64
    requires { SecondsFit local offset }
    ensures { result ≡ unix_seconds local offset }
{
    local as i64 - EPOCH - offset
}

// The instant of a run, if it is a date-time.
#[tactic(auto, using(crate::proofs::Steps::instant_steps))]
pub fn parse(run: &[u8]) -> Option<Instant>
    ensures { result ≡ date_of run.now }
{
    let days = full_date(run)?;
    if peek(run, 10) != b'T' {
        return None;
    }
    let time = partial_time(run)?;
    let full_time = FullTime::new(run);
    let offset = full_time.time_offset()?;
    Some(Instant {
        seconds: unix_seconds(days * 86400 + time, offset),
        nanos: full_time.nanos(),
    })
}
