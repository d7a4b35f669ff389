// The call: the suggestions for a run.
ghost use Rattle.suggest.specs.Calls.{refusal_number, SuggestsDurations};

use crate::candidates::{BYTES, count_all, fill_all};
use crate::run::ShortRun;
use base::answer::Numbered;
use suggestion_list::ENTRY_WIDTH;

// Why the call is refused.
#[derive(Clone, Copy, PartialEq, Eq, Debug)]
pub enum Refusal {
    // The run is empty, too long or not UTF-8.
    BadRun = 11,
    // The list is shorter than its entries.
    ListShort = 12,
}

impl Numbered for Refusal {
    ghost number_of = { refusal_number };

    // Document 02's number. Each refusal has an `impl` of its own, for cases and numbers of its own.
    fn number(self) -> u8 {
        self as u8
    }
}

// Lists the suggestions for a run, in order. It counts them first, but where the list suffices for any run of the length.
pub fn suggest_durations(run: &[u8], list: &mut [i64]) -> Result<usize, Refusal>
    ensures { SuggestsDurations run.now list.old result list.new }
{
    let Some(short) = ShortRun::parse(run) else {
        return Err(Refusal::BadRun);
    };
    if list.len() < run.len() * BYTES * ENTRY_WIDTH && list.len() < count_all(short) * ENTRY_WIDTH {
        return Err(Refusal::ListShort);
    }
    Ok(fill_all(short, list))
}
