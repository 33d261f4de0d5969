// Runs the cases that the paper checks by hand, the examples of its source, and routines whose shape is easily judged wrong through the
// public calls. It prints for each what was tried and what was got. `cases.txt` has the cases as the paper writes them; `make.py` beside
// it makes standard input of them. There a case is two records, which say what to do, and then the records to do it with.
#![tactic(auto)]

mod answers;
mod notation;
mod printing;
mod public_calls;

use notation::expand;
use public_calls::{Call, find, judge, run, run_base_of};
use records::record_at;
use std::io;
use std::io::Read;

// So many bytes from a place on, or as many as there are; all of them where they end before that place.
fn part(s: &[u8], from: usize, n: usize) -> &[u8] {
    match s.get(from..) {
        Some(rest) => &rest[..n.min(rest.len())],
        None => s,
    }
}

// The first of the two records has in its kind what to do, in x how many records follow and in y how many replies; the second is the
// replies, or has the numbers of a lookup in x and y.
fn try_case(rt: &impl Print, case: &[u8]) -> io::Result<()> {
    let said = record_at(case, 1);
    let records = part(case, 16, 8 * usize::from(said.x));
    let replies = part(case, 8, usize::from(said.y));
    let mut file = [0u8; 4096];
    let n = expand(records, &mut file);
    let s = &file[..n];
    match Call::from(said.kind) {
        Call::Judge(judged) => judge(rt, judged, records, s),
        Call::Run => run(rt, s, replies),
        Call::RunBase => run_base_of(rt, s, replies),
        Call::Find(sought) => find(rt, sought, records, s, record_at(case, 2)),
    }
}

// A case says how long it is, so that the cases are no chunks of one size.
fn try_all(rt: &impl Print, cases: &[u8]) -> io::Result<()> {
    let mut rest = cases;
    while !rest.is_empty() {
        try_case(rt, rest)?;
        let size = 16 + 8 * usize::from(record_at(rest, 1).x);
        rest = &rest[size.min(rest.len())..];
    }
    Ok(())
}

fn main(rt: HostRuntime) -> io::Result<()> {
    let mut input = [0u8; 65536];
    let came = io::copy(&mut rt.stdin().take(65536), &mut &mut input[..])?;
    try_all(&rt, part(&input, 0, came as usize))
}
