// The numbers of one record: the ranges that its kind's row gives, and the counter stack's own actions.
#![tactic(auto)]

ghost use Rattle.std.specs.Prelude.{◌≡◌, ◌&&◌, Some};
ghost use Rattle.rules.specs.Checks.{in_row, stack_action, has_stack};

use rules::{Notation, Record, Row};

// x and y are in the row's ranges.
#[tactic(auto, unfolding(rules::specs::Checks::in_row))]
pub fn in_row(row: Row, r: Record) -> bool
    ensures { result ≡ in_row (Some row) r }
{
    (row.xmin..=row.xmax).contains(&r.x) && (row.ymin..=row.ymax).contains(&r.y)
}

// x is one of the counter stack's own actions, and y what that action takes.
#[tactic(auto, using(crate::proofs::Within::names_range), unfolding(rules::specs::Checks::stack_action))]
fn stack_action(r: Record) -> bool
    ensures { result ≡ stack_action r }
{
    match (r.kind, r.x) {
        (1..=3, 1001 | 1003) => r.y <= 9999,
        (1..=3, 1002) => r.y == 0,
        _ => false,
    }
}

// In a base and a relative base x may also be one of the counter stack's own actions.
#[tactic(auto, unfolding(rules::specs::Checks::has_stack))]
pub fn own_action(notation: Notation, r: Record) -> bool
    ensures { result ≡ (has_stack notation && stack_action r) }
{
    notation != Notation::Routine && stack_action(r)
}
