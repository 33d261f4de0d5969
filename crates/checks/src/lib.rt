// Refusals 1 to 4, for a routine, a base and a relative base alike.
#![tactic(auto)]

ghost use Rattle.std.specs.Prelude.{◌≡◌, ◌+◌, ◌*◌, ◌<◌, ◌&&◌, ◌||◌, drop, Some};
ghost use Rattle.rules.specs.Record.{spare_zero, count};
ghost use Rattle.rules.specs.Checks.{most, in_row, has_stack, stack_action, fault};
ghost use Rattle.rules.specs.Answers.{check_records};

use fields::{in_row, own_action};
use kinds::row_of;
use records::record_at;
use rules::{Notation, Record, Refusal, Row, Verdict};

// A routine has 0 to 512 records, a base or relative base 0 to 4,096.
#[tactic(auto, unfolding(rules::specs::Checks::most))]
fn most_records(notation: Notation) -> usize
    ensures { result ≡ most notation }
{
    match notation {
        Notation::Routine => 512,
        Notation::Base | Notation::Relative => 4096,
    }
}

// Bytes 1, 6 and 7 of the record after the first k are zero.
fn spare_zero(s: &[u8], k: usize) -> bool
    requires { k < count s.now }
    ensures { result ≡ spare_zero (drop (8 * k) s.now) }
{
    let at = 8 * k;
    s[at + 1] == 0 && s[at + 6] == 0 && s[at + 7] == 0
}

// x and y are in the row's ranges, or the record is one of the counter stack's own actions.
fn fits(notation: Notation, row: Row, r: Record) -> bool
    ensures { result ≡ (in_row (Some row) r || has_stack notation && stack_action r) }
{
    in_row(row, r) || own_action(notation, r)
}

// The fault of the record after the first k: 3, a kind not of this notation, or byte 1, 6 or 7 not zero; else 4, x or y outside its
// range.
#[tactic(auto, using(crate::proofs::Faults::of_record))]
fn fault(notation: Notation, s: &[u8], k: usize) -> Option<Refusal>
    requires { k < count s.now }
    ensures { result ≡ fault notation (k + 1) (drop (8 * k) s.now) }
{
    let r = record_at(s, k + 1);
    match row_of(notation, r.kind) {
        Some(row) if spare_zero(s, k) => if fits(notation, row, r) {
            None
        } else {
            Some(Refusal::Field(k + 1))
        },
        _ => Some(Refusal::Kind(k + 1)),
    }
}

// Refusals 1 to 4 of a file in a notation, in the paper's order; else how many records it has.
#[tactic(auto, using(crate::proofs::Faults::from_left))]
pub fn check_records(notation: Notation, s: &[u8]) -> Verdict
    ensures { result ≡ check_records notation s.now }
{
    if s.len() % 8 != 0 {
        return Err(Refusal::Ragged);
    }
    let n = s.len() / 8;
    if most_records(notation) < n {
        return Err(Refusal::Long);
    }
    for k in 0..n {
        if let Some(refusal) = fault(notation, s, k) {
            return Err(refusal);
        }
    }
    Ok(n)
}

// The checks of a base.
pub fn check_base(s: &[u8]) -> Verdict
    ensures { result ≡ check_records Notation.Base s.now }
{
    check_records(Notation::Base, s)
}

// The checks of a relative base.
pub fn check_relative(s: &[u8]) -> Verdict
    ensures { result ≡ check_records Notation.Relative s.now }
{
    check_records(Notation::Relative, s)
}
