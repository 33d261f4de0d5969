// Partners of all records in one pass each. An entry is written once, when its record is passed. Every number is 0 where there is none.
// The two passes have a loop each: they run opposite ways, and one function for both would take the way and the step as parameters.
#![tactic(auto)]

ghost use Rattle.std.specs.Prelude.{◌≡◌, ◌≤◌, ◌<◌, length, get_or};
ghost use Rattle.rules.specs.Record.{count};
ghost use Rattle.rules.specs.Instruction.{loop, ops};
ghost use Rattle.laws.proofs.Partners.{role_of_kind};
ghost use Rattle.records.specs.Reading.{rec_at};
ghost use Rattle.partners.specs.Roles.{sort_of};
ghost use Rattle.tables.specs.Tables.{room, filled};
ghost use Rattle.tables.specs.Passing.{stop_of, open_at, end_by, Passed, head_of};

use partners::{Role, Sort, role_of};
use records::kind_at;

// Entry k of a table.
pub fn look(t: &[u16], k: usize) -> u16
    ensures { result ≡ get_or t.now k 0 }
{
    t.get(k).copied().unwrap_or(0)
}

// Whether a table has room for the records of a file, and for entry 0. No table is made of a file longer than a base may be.
#[tactic(auto, unfolding(crate::specs::Tables::room))]
pub fn has_room(s: &[u8], t: &[u16]) -> bool
    ensures { result ≡ room (count s.now) t.now }
{
    let n = s.len() / 8;
    n <= 4096 && n < t.len()
}

// The end that k is; or that the separator k has in the table.
#[tactic(auto, unfolding(crate::specs::Passing::end_by, crate::specs::Passing::parting, partners::specs::Roles::role_said))]
fn end_by(sort: Sort, s: &[u8], t: &[u16], k: u16) -> u16
    ensures { result ≡ end_by (sort_of sort) s.now t.now k }
{
    if role_of(sort, kind_at(s, usize::from(k))) == Role::Parts {
        look(t, usize::from(k))
    } else {
        k
    }
}

// Passes record i from the right, `top` being where the arm behind it ends. A header's item is passed over: on from its end. That i has
// room in 16 bits is proved at the casts.
#[tactic(auto, unfolding(crate::specs::Passing::top_of, crate::specs::Passing::entry_of, crate::specs::Passing::parting, partners::specs::Roles::role_said))]
fn pass(sort: Sort, s: &[u8], t: &mut [u16], i: usize, top: u16) -> u16
    requires { (i ≤ 4096) × (i < length t.old) }
    ensures { Passed (sort_of sort) s.now t.old i top result t.new }
{
    match role_of(sort, kind_at(s, i)) {
        Role::Opens => {
            let out = look(t, usize::from(end_by(sort, s, t, top)));
            t[i] = top;
            out
        }
        Role::Parts => {
            t[i] = end_by(sort, s, t, top);
            i as u16
        }
        Role::Ends => {
            t[i] = top;
            i as u16
        }
        Role::Other => {
            t[i] = top;
            top
        }
    }
}

// Of a separator its end; of any other record where the arm behind it ends. From the last record to the first: what an entry is found by
// stands behind it.
#[tactic(auto, unfolding(crate::specs::Tables::room, crate::specs::Tables::filled))]
pub fn fill_stops(sort: Sort, s: &[u8], t: &mut [u16])
    ensures { t.new ≡ filled (stop_of (sort_of sort) (ops s.now)) (count s.now) t.old }
{
    if !has_room(s, t) {
        return;
    }
    t[0] = 0;
    let mut top = 0;
    for i in (1..=s.len() / 8).rev() {
        top = pass(sort, s, t, i, top);
    }
}

// The header that is open behind record i, `top` being the one open before it.
#[tactic(auto, unfolding(crate::specs::Passing::head_of, partners::specs::Roles::role_said))]
fn enter(s: &[u8], t: &[u16], i: usize, top: u16) -> u16
    requires { i ≤ 4096 }
    ensures { result ≡ head_of (role_of_kind loop (rec_at s.now i).kind) i top (get_or t.now top 0) }
{
    match role_of(Sort::Loop, kind_at(s, i)) {
        Role::Opens => i as u16,
        Role::Ends => look(t, usize::from(top)),
        Role::Parts | Role::Other => top,
    }
}

// Of every record the header of the loop that is open before it: of a loop's end its own. From the first record to the last.
#[tactic(auto, using(crate::proofs::Filling::last_entered), unfolding(crate::specs::Tables::room, crate::specs::Tables::filled))]
pub fn fill_headers(s: &[u8], t: &mut [u16])
    ensures { t.new ≡ filled (open_at loop (ops s.now)) (count s.now) t.old }
{
    if !has_room(s, t) {
        return;
    }
    t[0] = 0;
    let mut top = 0;
    for i in 1..=s.len() / 8 {
        t[i] = top;
        top = enter(s, t, i, top);
    }
}
