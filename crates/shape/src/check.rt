// The checks of a routine, 1 to 5, 14, 6 and 7, in that order.
ghost use Rattle.std.specs.Prelude.{◌≡◌};
ghost use Rattle.rules.specs.Answers.{check_routine};

use crate::nesting::nesting_place;
use checks::check_records;
use growth::{base_count, skip_place};
use labels::lost_goto;
use rules::{Notation, Refusal, Verdict};

// The first of refusals 1 to 5, 14, 6 and 7 that a routine has, or how many records it holds.
pub fn check_routine(s: &[u8]) -> Verdict
    ensures { result ≡ check_routine s.now }
{
    let n = check_records(Notation::Routine, s)?;
    if let Some(place) = nesting_place(s) {
        return Err(Refusal::Nesting(place));
    }
    if let Some(place) = lost_goto(s) {
        return Err(Refusal::Label(place));
    }
    if let Some(place) = skip_place(s) {
        return Err(Refusal::Skip(place));
    }
    if 4096 < base_count(s) {
        return Err(Refusal::Growth);
    }
    Ok(n)
}
