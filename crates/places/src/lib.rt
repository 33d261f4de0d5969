// Second level and its removal (3.1). A stage writes each record's group, the first of it first level, with its jumps already sent on
// to where they lead once second level is gone.
#![tactic(auto)]

mod expansion;

ghost use Rattle.std.specs.Prelude.{◌≡◌, [], ◌∷◌, ◌≤◌, get_or};
ghost use Rattle.rules.specs.Record.{rec, count};
ghost use Rattle.rules.specs.Numbers.{past};
ghost use Rattle.records.specs.Reading.{rec_at};
ghost use Rattle.tables.specs.Tables.{filled};
ghost use Rattle.places.specs.Stages.{seconds_of, within, leads, kept_by};
ghost use Rattle.places.specs.Writing.{Fitted};

pub use expansion::{Expansion, File, write_groups};
use records::{jump, kind_at, put_record, record_at};
use rules::Record;
use tables::{has_room, look};

// The four stages.
#[derive(Clone, Copy, Debug, PartialEq, Eq)]
pub enum Stage {
    Labels,
    Calls,
    Loops,
    Conditionals,
}

// How many second-level records a record of this kind brings with it, in a stage on n records.
#[tactic(auto, unfolding(crate::specs::Stages::seconds_of))]
fn seconds_of(stage: Stage, n: usize, kind: u8) -> usize
    requires { n ≤ 2305843009213693951 }
    ensures { result ≡ seconds_of stage n kind }
{
    match (stage, kind) {
        (Stage::Calls, 16) => 5 * n,
        (Stage::Calls, 15) | (Stage::Loops, 12 | 13) | (Stage::Conditionals, 8 | 9) => 1,
        _ => 0,
    }
}

// A number that a base can have; 0 in place of a greater one. The cast is within 4,096, which is proved: try_from would add an arm that
// never runs.
#[tactic(auto, unfolding(crate::specs::Stages::within))]
fn short(k: usize) -> u16
    ensures { result ≡ within k }
{
    if k <= 4096 { k as u16 } else { 0 }
}

// Where every jump leads: ##0 stays, one above the count becomes ##0, any other ##k becomes ##(k+l), l being the second-level records
// before the k-th first-level one. They are counted once. 0 where that is beyond what a base can hold.
#[tactic(auto, using(crate::proofs::Places::counted_sum, crate::proofs::Places::counted_last), unfolding(tables::specs::Tables::room, tables::specs::Tables::filled))]
pub fn fill_places(stage: Stage, s: &[u8], t: &mut [u16])
    ensures { t.new ≡ filled (leads stage s.now) (count s.now) t.old }
{
    if !has_room(s, t) {
        return;
    }
    let n = s.len() / 8;
    t[0] = 0;
    let mut l = 0;
    for i in 1..=n {
        t[i] = short(i + l);
        l += seconds_of(stage, n, kind_at(s, i));
    }
}

// Where a jump past record k leads; there is none to jump past where k is 0.
#[tactic(auto, unfolding(rules::specs::Numbers::past, rules::specs::Numbers::given))]
pub fn look_past(t: &[u16], k: u16) -> u16
    ensures { result ≡ get_or t.now (past k) 0 }
{
    match k {
        0 => look(t, 0),
        _ => look(t, usize::from(k) + 1),
    }
}

// A record that stays, but for its number where it is a jump: the table has where it leads.
#[tactic(auto, using(crate::proofs::Writing::fit_one), unfolding(crate::specs::Stages::kept_by))]
pub fn put_kept(s: &[u8], i: usize, t: &[u16], out: &mut [u8]) -> usize
    ensures { Fitted (kept_by t.now (rec_at s.now i) ∷ []) out.old out.new result }
{
    let record = record_at(s, i);
    put_record(
        out,
        match record.kind {
            4 => jump(look(t, usize::from(record.x))),
            _ => record,
        },
    )
}

// A first-level record, and behind it a second-level ##to.
pub fn put_pair(out: &mut [u8], first: Record, to: u16) -> usize
    ensures { Fitted (first ∷ rec 4 to 0 ∷ []) out.old out.new result }
{
    let at = put_record(out, first);
    at + put_record(&mut out[at..], jump(to))
}
