// The one number that a step needs besides its record's own fields: where a goto or a bracket leads. It is looked up before the first step.
#![tactic(auto)]

ghost use Rattle.std.specs.Prelude.{◌≡◌, false, ◌⊎◌, ℕ, suc, ◌≤◌, ◌<◌};
ghost use Rattle.rules.specs.Numbers.{past};
ghost use Rattle.ways.specs.Places.{place_at};
ghost use Rattle.ways.specs.Ways.{near, entered, ways, Plain, Partnered};

use labels::{place_of, target, target2};
use partners::Sort;
use records::{kind_at, record_at};
use rules::Record;
use tables::{fill_headers, fill_stops, look};

// Tables of partners: the stops of conditionals and of loops, and the headers of loop ends. No ghost field says that they are right: where
// no record has a partner they are empty.
#[derive(Clone, Copy)]
struct Partners<'a> {
    stops: &'a [u16],
    ends: &'a [u16],
    headers: &'a [u16],
}

// The number after k, where k names a record.
#[tactic(auto, unfolding(rules::specs::Numbers::past, rules::specs::Numbers::given))]
fn past_record(k: u16) -> usize
    ensures { result ≡ past k }
{
    if k == 0 { 0 } else { usize::from(k) + 1 }
}

// A goto to its target, or 0; a header past its first arm or loop end; a separator past its end; a loop end to its header. 0 for
// any other record. The tables have the partners, where the record has one.
#[tactic(auto, using(crate::proofs::Ways::nowhere))]
fn place(s: &[u8], i: usize, partners: Partners) -> usize
    requires { Plain s.now i ⊎ Partnered s.now partners.stops.now partners.ends.now partners.headers.now }
    ensures { result ≡ place_at s.now i }
{
    let Record { kind, x, y } = record_at(s, i);
    match kind {
        6 => place_of(target(s, x)),
        7 => place_of(target2(s, x, y)),
        8 | 9 | 10 => past_record(look(partners.stops, i)),
        12 | 13 => past_record(look(partners.ends, i)),
        14 => usize::from(look(partners.headers, i)),
        _ => 0,
    }
}

// A place in 16 bits. Beyond 512 it is 0: a move to any number outside 1..n ends. The test bounds the cast; `try_from` would ask again.
#[tactic(auto, unfolding(crate::specs::Ways::near))]
fn near(place: usize) -> u16
    ensures { result ≡ near place }
{
    if place <= 512 { place as u16 } else { 0 }
}

// Puts the places of the records behind the first `from`, up to number `to`, into the table.
fn put_ways(s: &[u8], from: usize, to: usize, partners: Partners, t: &mut [u16])
    requires { (k : ℕ) → from ≤ k → k < to → Plain s.now (suc k) ⊎ Partnered s.now partners.stops.now partners.ends.now partners.headers.now }
    ensures { t.new ≡ entered s.now from to t.old }
{
    for k in from..to.min(t.len()) {
        t[k] = near(place(s, k + 1, partners));
    }
}

// Whether any of these records is a header, a separator or an end.
fn any_bracket(s: &[u8], from: usize, to: usize) -> bool
    ensures { result ≡ false → (k : ℕ) → from ≤ k → k < to → Plain s.now (suc k) }
{
    for k in from..to {
        if matches!(kind_at(s, k + 1), 8..=14) {
            return true;
        }
    }
    false
}

// The places of the records behind the first `from`, up to number `to`, in a table whose entry k is of record k + 1. Partners are found
// for all records at once, and only where one of these has any.
pub fn fill_ways(s: &[u8], from: usize, to: usize, t: &mut [u16])
    ensures { t.new ≡ ways s.now from to t.old }
{
    if 512 < s.len() / 8 {
        return;
    }
    if !any_bracket(s, from, to) {
        let none = Partners {
            stops: &[],
            ends: &[],
            headers: &[],
        };
        put_ways(s, from, to, none, t);
        return;
    }
    let mut stops = [0; 513];
    fill_stops(Sort::Conditional, s, &mut stops);
    let mut ends = [0; 513];
    fill_stops(Sort::Loop, s, &mut ends);
    let mut headers = [0; 513];
    fill_headers(s, &mut headers);
    let all = Partners {
        stops: &stops,
        ends: &ends,
        headers: &headers,
    };
    put_ways(s, from, to, all, t);
}
