// Relative jumps (2.2): a base whose jumps are absolute to one whose jumps are relative, and back.
#![tactic(auto)]

ghost use Rattle.std.specs.Prelude.{◌≡◌, [], ◌∷◌, ◌+◌, ◌*◌, ◌≤◌, ◌<◌, length};
ghost use Rattle.rules.specs.Words.{ℕ};
ghost use Rattle.rules.specs.Record.{Rec, records, count};
ghost use Rattle.rules.specs.Numbers.{each, found};
ghost use Rattle.rules.specs.Relative.{relative_at, to_relative, absolute_at, to_absolute, far};
ghost use Rattle.rules.specs.Answers.{relating, absoluting, Translated};
ghost use Rattle.records.specs.Reading.{rec_at};
ghost use Rattle.records.specs.Writing.{Wrote};
ghost use Rattle.relative.specs.Turning.{Turns};

use checks::check_records;
use records::{jump, put_record, record_at};
use rules::{Notation, Record, Refusal, Verdict};

// Record number i with its jump, if it is one, made relative: ##0 becomes stop; other ##k becomes forward k-i if k ≥ i, else backward i-k.
#[tactic(auto, unfolding(rules::specs::Relative::relative_at, rules::specs::Relative::relative_jump))]
fn relative_at(i: u16, r: Record) -> Record
    ensures { result ≡ relative_at i r }
{
    match (r.kind, r.x) {
        (4, 0) => Record {
            kind: 19,
            x: 0,
            y: 0,
        },
        (4, x) if i <= x => Record {
            kind: 17,
            x: x - i,
            y: 0,
        },
        (4, x) => Record {
            kind: 18,
            x: i - x,
            y: 0,
        },
        _ => r,
    }
}

// x of record number i once its jump, if it is one, is absolute: forward k becomes ##(k+i); backward k becomes ##(i-k) if k < i,
// else ##0; stop becomes ##0.
#[tactic(auto, unfolding(rules::specs::Relative::absolute_at))]
fn absolute_x(i: u16, r: Record) -> u32
    ensures { result ≡ (absolute_at i r).x }
{
    match r.kind {
        17 => u32::from(r.x) + u32::from(i),
        18 => u32::from(i.saturating_sub(r.x)),
        19 => 0,
        _ => u32::from(r.x),
    }
}

// Record number i with its jump, if it is one, made absolute. Here and below a cast's bound is proved; `try_from` would add an arm that
// never runs.
#[tactic(auto, unfolding(rules::specs::Relative::absolute_at))]
fn absolute_at(i: u16, r: Record) -> Record
    requires { (absolute_at i r).x ≤ 9999 }
    ensures { result ≡ absolute_at i r }
{
    match r.kind {
        17..=19 => jump(absolute_x(i, r) as u16),
        _ => r,
    }
}

// The records of a file, each turned and put into the unwritten rest of the output.
fn put_turned<F: Fn(u16, Record) -> Record>(s: &[u8], turn: F, out: &mut [u8]) -> usize
    requires few { count s.now ≤ 4096 }
    requires room { 8 * count s.now ≤ length out.old }
    requires can { (i : ℕ) → i < count s.now → F.pre turn (i + 1) (rec_at s.now (i + 1)) }
    ensures { (f : ℕ → Rec → Rec) → Turns (F.post turn) f → Wrote (each f 1 (records s.now)) out.old out.new result }
{
    let mut at = 0;
    for i in 0..s.len() / 8 {
        at += put_record(&mut out[at..], turn(i as u16 + 1, record_at(s, i + 1)));
    }
    at
}

// The first record whose number in the base would be above 9,999.
fn first_far(s: &[u8]) -> Option<usize>
    requires { count s.now ≤ 4096 }
    ensures { result ≡ found (far (records s.now)) }
{
    for i in 0..s.len() / 8 {
        if 9999 < absolute_x(i as u16 + 1, record_at(s, i + 1)) {
            return Some(i + 1);
        }
    }
    None
}

// A base with its jumps made relative. A refusal, 1 to 4 or 8, leaves the output as it was.
#[tactic(auto, using(crate::proofs::Translations::base_kept))]
pub fn to_relative(base: &[u8], out: &mut [u8]) -> Verdict
    ensures { Translated (relating base.now out.old) (to_relative (records base.now)) out.old result out.new }
{
    let n = check_records(Notation::Base, base)?;
    if out.len() < 8 * n {
        return Err(Refusal::Room);
    }
    put_turned(base, relative_at, out);
    Ok(n)
}

// A relative base with its jumps made absolute. A refusal, 1 to 4, 11 or 8, leaves the output as it was.
#[tactic(auto, using(crate::proofs::Translations::relative_kept))]
pub fn to_absolute(relative: &[u8], out: &mut [u8]) -> Verdict
    ensures { Translated (absoluting relative.now out.old) (to_absolute (records relative.now)) out.old result out.new }
{
    let n = check_records(Notation::Relative, relative)?;
    if let Some(place) = first_far(relative) {
        return Err(Refusal::Far(place));
    }
    if out.len() < 8 * n {
        return Err(Refusal::Room);
    }
    put_turned(relative, absolute_at, out);
    Ok(n)
}
