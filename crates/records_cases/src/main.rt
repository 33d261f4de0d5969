// The checks of the three notations on bad input: what was tried and what was answered, a line each.
#![tactic(auto)]

ghost use Rattle.std.specs.Prelude.{◌≤◌};

use checks::check_records;
use records::put_record;
use refusals::number_of;
use rules::{Notation, Record, Verdict};
use std::io;

// What was answered, to the end of the line. `vectors` has the like: a crate for both would rest on what is assumed of printing. Two
// numbers and a word have at most 50 bytes.
fn print_answer(rt: &impl Print, verdict: Verdict) -> io::Result<()> {
    let mut line = [0u8; 50];
    let n = show::put_answer(verdict, &mut line);
    rt.write_all(&line[..n])
}

// Files of 0 to 17 bytes, all zero.
fn short_files(rt: &impl Print) -> io::Result<()> {
    let zeros = [0u8; 17];
    for n in 0..18 {
        print!(rt; "{n} zero bytes: ")?;
        print_answer(rt, check_records(Notation::Routine, &zeros[..n]))?;
    }
    Ok(())
}

// Every record a1.
fn fill(s: &mut [u8]) {
    let a1 = Record {
        kind: 1,
        x: 1,
        y: 0,
    };
    for record in s.chunks_exact_mut(8) {
        put_record(record, a1);
    }
}

// As many records as allowed, and one more.
fn long_files(rt: &impl Print, notation: Notation, bytes: usize) -> io::Result<()>
    requires { bytes ≤ 32768 }
{
    let mut s = [0u8; 32776];
    fill(&mut s);
    print!(rt; "as long as allowed: ")?;
    print_answer(rt, check_records(notation, &s[..bytes]))?;
    print!(rt; "one record more: ")?;
    print_answer(rt, check_records(notation, &s[..bytes + 8]))
}

// The answer to one record, as the number that is printed: 0 where it is accepted, else the refusal's.
fn one_record(rt: &impl Print, notation: Notation, record: Record) -> io::Result<()> {
    let mut s = [0u8; 8];
    put_record(&mut s, record);
    let answer = match check_records(notation, &s) {
        Ok(_) => 0,
        Err(refusal) => number_of(refusal),
    };
    print!(rt; "{answer}")
}

// Every kind, with the same x and y.
fn every_kind(rt: &impl Print, notation: Notation, x: u16, y: u16) -> io::Result<()> {
    print!(rt; "kinds 0 to 255: ")?;
    for kind in 0..=255 {
        one_record(rt, notation, Record { kind, x, y })?;
    }
    println!(rt)
}

// One kind, with x at the bounds of every range and one beyond.
fn every_x(rt: &impl Print, notation: Notation, kind: u8, y: u16) -> io::Result<()> {
    for x in [0, 1, 999, 1000, 1001, 1002, 1003, 1004, 9999, 10000, 65535] {
        one_record(rt, notation, Record { kind, x, y })?;
    }
    print!(rt; " ")
}

// The same with y at its bounds.
fn every_y(rt: &impl Print, notation: Notation, kind: u8) -> io::Result<()> {
    print!(rt; "fields of kind {kind}: ")?;
    for y in [0, 1, 999, 1000, 9999, 10000] {
        every_x(rt, notation, kind, y)?;
    }
    println!(rt)
}

// The same of every kind that is listed, and one beyond.
fn every_field(rt: &impl Print, notation: Notation) -> io::Result<()> {
    for kind in 1..20 {
        every_y(rt, notation, kind)?;
    }
    Ok(())
}

// A good record with one byte that should be zero and is not.
fn spare_bytes(rt: &impl Print) -> io::Result<()> {
    for at in 0..8 {
        let mut s = [0u8; 16];
        fill(&mut s);
        s[8 + at] = 1;
        print!(rt; "byte {at} of record 2 is 1: ")?;
        print_answer(rt, check_records(Notation::Base, &s))?;
    }
    Ok(())
}

// Files in a notation, which may have so many bytes.
fn files(rt: &impl Print, name: &str, notation: Notation, bytes: usize) -> io::Result<()>
    requires { bytes ≤ 32768 }
{
    println!(rt; "{name}")?;
    long_files(rt, notation, bytes)?;
    every_kind(rt, notation, 0, 0)?;
    every_kind(rt, notation, 1, 0)?;
    every_kind(rt, notation, 1, 1)?;
    every_field(rt, notation)
}

fn main(rt: HostRuntime) -> io::Result<()> {
    short_files(&rt)?;
    files(&rt, "routine", Notation::Routine, 4096)?;
    files(&rt, "base", Notation::Base, 32768)?;
    files(&rt, "relative base", Notation::Relative, 32768)?;
    spare_bytes(&rt)
}
