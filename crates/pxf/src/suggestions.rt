// Suggestions for a mistyped duration, for C.
ghost use Rattle.pxf.specs.Suggestions.{SuggestionsGiven};

use crate::values;

// Lists the suggestions for a run: `answer` gets the count of entries.
#[tactic(auto, using(crate::proofs::Passed::suggestions_given, crate::proofs::Passed::one_fits, suggest::proofs::Answers::value_small))]
#[unsafe(no_mangle)]
pub extern "C" fn pxf_suggest_durations(run: &[u8], list: &mut [i64], answer: &mut [i64; 6]) -> u8
    ensures { SuggestionsGiven run.now list.old result list.new answer.new }
{
    let r = suggest::call::suggest_durations(run, list);
    values::give(r, answer)
}
