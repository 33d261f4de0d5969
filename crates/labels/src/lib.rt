// Labels: where a goto leads, and refusal 14, a goto that leads nowhere.
#![tactic(auto)]

ghost use Rattle.std.specs.Prelude.{◌≡◌};
ghost use Rattle.rules.specs.Instruction.{ops};
ghost use Rattle.rules.specs.Numbers.{found, or_zero};
ghost use Rattle.rules.specs.Labels.{label_after, lost_goto};
ghost use Rattle.rules.specs.Labels as labels;
ghost use Rattle.labels.specs.Lost.{lost_at};

use records::{record_at, x_at};

// The first [x] strictly after record number i. Of a record that is no label only the kind is read: each goto comes through here.
#[tactic(auto, using(crate::proofs::Targets::label_read))]
fn label_after(s: &[u8], i: usize, x: u16) -> Option<usize>
    ensures { result ≡ label_after (ops s.now) i x }
{
    for k in i..s.len() / 8 {
        if s[8 * k] == 5 && x_at(s, k + 1) == x {
            return Some(k + 1);
        }
    }
    None
}

// The target of ##[x]: the leftmost [x].
#[tactic(auto, unfolding(rules::specs::Labels::target))]
pub fn target(s: &[u8], x: u16) -> Option<usize>
    ensures { result ≡ labels.target (ops s.now) x }
{
    label_after(s, 0, x)
}

// The target of ##[x][y]: the first [y] strictly after the leftmost [x].
#[tactic(auto, unfolding(rules::specs::Labels::target2, rules::specs::Labels::label_behind))]
pub fn target2(s: &[u8], x: u16, y: u16) -> Option<usize>
    ensures { result ≡ labels.target2 (ops s.now) x y }
{
    label_after(s, target(s, x)?, y)
}

// The place that a lookup found; 0 where it found none: the one place where that becomes a number, for a stage and for a step.
#[tactic(auto, unfolding(rules::specs::Numbers::or_zero))]
pub fn place_of(lookup: Option<usize>) -> usize
    ensures { result ≡ or_zero lookup }
{
    lookup.unwrap_or(0)
}

// Record i is a goto whose target does not exist.
#[tactic(auto, unfolding(crate::specs::Lost::lost_record, rules::specs::Labels::missing))]
fn is_lost(s: &[u8], i: usize) -> bool
    ensures { result ≡ lost_at s.now i }
{
    let goto = record_at(s, i);
    match goto.kind {
        6 => target(s, goto.x).is_none(),
        7 => target2(s, goto.x, goto.y).is_none(),
        _ => false,
    }
}

// The place of refusal 14: the lowest goto whose target does not exist. The range is half open, since over `1..=` the chain's proof
// did not close.
pub fn lost_goto(s: &[u8]) -> Option<usize>
    ensures { result ≡ found (lost_goto (ops s.now)) }
{
    (1..s.len() / 8 + 1).find(|i| is_lost(s, *i))
}
