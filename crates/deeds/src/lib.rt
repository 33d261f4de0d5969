// What a record does, with its numbers worked out, at the moment it is run.
#![tactic(auto)]

ghost use Rattle.std.specs.Prelude.{◌≡◌, List, ℕ, ◌+◌, ◌≤◌, ◌<◌, ◌^◌};
ghost use Rattle.rules.specs.Record.{count};
ghost use Rattle.records.specs.Reading.{rec_at};
ghost use Rattle.deeds.specs.Deeds.{place_in, asking, deed_of};

use records::record_at;
use rules::Record;

// The actions that change the counter stack.
#[derive(Clone, Copy, Debug, PartialEq, Eq)]
pub enum Own {
    Push(u16),
    Pop,
}

// Go to the place; do the outside action, change the counter stack, or compare its top with the number, with the places on yes and on no;
// go back to the number on top.
#[derive(Clone, Copy, Debug, PartialEq, Eq)]
pub enum Deed {
    Leap(usize),
    Ask(u16, usize, usize),
    Change(Own, usize, usize),
    Compare(u16, usize, usize),
    Return,
}

// Where a goto or a bracket leads: from the table, which a base has none of.
#[tactic(auto, unfolding(crate::specs::Deeds::place_in))]
fn place_at(places: &[u16], i: usize) -> usize
    requires { 1 ≤ i }
    ensures { result ≡ place_in places.now i }
{
    usize::from(places.get(i - 1).copied().unwrap_or(0))
}

// The record's action, with the places on yes and on no. In a base 1001 pushes y, 1002 pops, 1003 compares the top with y.
#[tactic(auto, unfolding(crate::specs::Deeds::asking))]
fn ask(record: Record, yes: usize, no: usize) -> Deed
    ensures { result ≡ asking «record».x «record».y «yes» «no» }
{
    match record.x {
        1001 => Deed::Change(Own::Push(record.y), yes, no),
        1002 => Deed::Change(Own::Pop, yes, no),
        1003 => Deed::Compare(record.y, yes, no),
        x => Deed::Ask(x, yes, no),
    }
}

// What one step does is decided by the kind: the paper's list, one kind after another. `next` is the number after i, as a call pushes
// it. One caller only, the machine's loop, so that it is compiled into that.
#[tactic(auto, using(ways::proofs::Places::from_one, ways::proofs::Places::in_file), unfolding(crate::specs::Deeds::deed_of, crate::specs::Deeds::rows))]
pub fn deed_at(s: &[u8], places: &[u16], i: usize, next: u16) -> Deed
    ensures { result ≡ deed_of s.now places.now i next (rec_at s.now i).kind }
{
    let record = record_at(s, i);
    match record.kind {
        // a: do a, go to i+1.
        1 => ask(record, i + 1, i + 1),
        // +a: on yes i+1, on no i+2.
        2 => ask(record, i + 1, i + 2),
        // -a: the reverse.
        3 => ask(record, i + 2, i + 1),
        // ##k: go to k.
        4 => Deed::Leap(usize::from(record.x)),
        // [s]: i+1.
        5 => Deed::Leap(i + 1),
        // Gotos: to the target, or end.
        6 | 7 => {
            let target = place_at(places, i);
            Deed::Leap(target)
        }
        // +a{ or +a{*: on yes i+1, on no past the separator, or the end where there is none, or the loop end.
        8 | 12 => {
            let past = place_at(places, i);
            ask(record, i + 1, past)
        }
        // -a{ and -a{* with yes and no exchanged.
        9 | 13 => {
            let past = place_at(places, i);
            ask(record, past, i + 1)
        }
        // }{: past its end.
        10 => {
            let past = place_at(places, i);
            Deed::Leap(past)
        }
        // }: i+1.
        11 => Deed::Leap(i + 1),
        // *}: to the loop header.
        14 => {
            let header = place_at(places, i);
            Deed::Leap(header)
        }
        // R##k: push i+1, go to k.
        15 => Deed::Change(
            Own::Push(next),
            usize::from(record.x),
            usize::from(record.x),
        ),
        // ##R: back to the number on top.
        16 => Deed::Return,
        _ => Deed::Leap(0),
    }
}
