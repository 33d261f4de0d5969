// The constant table: sixteen rows, one for each kind a routine may use, read by the checks and by the length formula.
#![tactic(auto)]

ghost use Rattle.std.specs.Prelude.{◌≡◌};
ghost use Rattle.rules.specs.Numbers.{at};
ghost use Rattle.rules.specs.Table.{row_of};

use rules::{Notation, Row};

// No field.
const BARE: Row = Row {
    xmin: 0,
    xmax: 0,
    ymin: 0,
    ymax: 0,
    once: 0,
    each: 0,
};

// A number as x: 0..9,999.
const NUMBER: Row = Row { xmax: 9999, ..BARE };

// An action or a label as x: 1..999.
const NAMED: Row = Row {
    xmin: 1,
    xmax: 999,
    ..BARE
};

// Labels as x and y.
const LABELS: Row = Row {
    ymin: 1,
    ymax: 999,
    ..NAMED
};

// A header adds one place, and so does a call.
const HEADER: Row = Row { once: 1, ..NAMED };

const CALL: Row = Row { once: 1, ..NUMBER };

// A return adds six places for each record of the routine.
const RETURN: Row = Row { each: 6, ..BARE };

const ROWS: [Row; 16] = [
    NAMED, NAMED, NAMED, NUMBER, NAMED, NAMED, LABELS, HEADER, HEADER, BARE, BARE, HEADER, HEADER,
    BARE, CALL, RETURN,
];

// A relative base has forward, backward and stop, kinds 17 to 19, in place of jumps.
const RELATIVE_ROWS: [Row; 3] = [NUMBER, NUMBER, BARE];

// Number k of a table, from 1.
#[tactic(auto, using(crate::proofs::Rows::at_behind), unfolding(rules::specs::Numbers::at))]
fn numbered(table: &[Row], k: usize) -> Option<Row>
    ensures { result ≡ at table.now k }
{
    table.get(k.checked_sub(1)?).copied()
}

// The row of a kind in a notation, none where the kind is not of it: a routine has the first sixteen, a base the first four, a relative
// base the first three and its own.
#[tactic(auto, unfolding(rules::specs::Table::row_of, rules::specs::Table::rows, rules::specs::Table::relative_rows))]
pub fn row_of(notation: Notation, kind: u8) -> Option<Row>
    ensures { result ≡ row_of notation kind }
{
    let k = usize::from(kind);
    match notation {
        Notation::Routine => numbered(&ROWS, k),
        Notation::Base => numbered(&ROWS[..4], k),
        Notation::Relative if k <= 3 => numbered(&ROWS, k),
        Notation::Relative => numbered(&RELATIVE_ROWS, k.saturating_sub(16)),
    }
}
