// The public calls, each by the number that a case gives it.
use crate::answers::print_ran;
use crate::notation::print_records;
use crate::part;
use crate::printing::print_answer;
use labels::{place_of, target, target2};
use lower::convert;
use partners::Sort;
use rules::{Record, Verdict};
use std::{fmt, io};
use tables::{fill_headers, fill_stops, look};

// What is asked of a case.
#[derive(Clone, Copy)]
pub enum Call {
    Judge(Judged),
    Run,
    RunBase,
    Find(Sought),
}

// The calls that answer a verdict.
#[derive(Clone, Copy)]
pub enum Judged {
    Check,
    Convert,
    List,
    ToRelative,
    ToAbsolute,
}

// The lookups.
#[derive(Clone, Copy)]
pub enum Sought {
    LoopEnd,
    LoopHeader,
    End,
    ArmEnd,
    Target,
    SecondTarget,
    Unnumbered,
}

impl From<u8> for Call {
    fn from(number: u8) -> Call {
        match number {
            0 => Call::Judge(Judged::Check),
            1 => Call::Judge(Judged::Convert),
            2 => Call::Judge(Judged::List),
            3 => Call::Judge(Judged::ToRelative),
            4 => Call::Judge(Judged::ToAbsolute),
            5 => Call::Run,
            6 => Call::RunBase,
            7 => Call::Find(Sought::LoopEnd),
            8 => Call::Find(Sought::LoopHeader),
            9 => Call::Find(Sought::End),
            10 => Call::Find(Sought::ArmEnd),
            11 => Call::Find(Sought::Target),
            12 => Call::Find(Sought::SecondTarget),
            _ => Call::Find(Sought::Unnumbered),
        }
    }
}

impl fmt::Display for Judged {
    fn fmt<W: fmt::Write>(&self, f: &mut fmt::Formatter<W>) -> fmt::Result {
        f.write_str(match self {
            Judged::Check => "check",
            Judged::Convert => "convert",
            Judged::List => "list",
            Judged::ToRelative => "to relative",
            Judged::ToAbsolute => "to absolute",
        })
    }
}

impl fmt::Display for Sought {
    fn fmt<W: fmt::Write>(&self, f: &mut fmt::Formatter<W>) -> fmt::Result {
        f.write_str(match self {
            Sought::LoopEnd => "loop end",
            Sought::LoopHeader => "loop header",
            Sought::End => "end",
            Sought::ArmEnd => "end of the first arm",
            Sought::Target | Sought::SecondTarget | Sought::Unnumbered => "target",
        })
    }
}

fn answer(judged: Judged, s: &[u8], out: &mut [u8]) -> Verdict {
    let mut work = [0u8; 32768];
    match judged {
        Judged::Check => shape::check_routine(s),
        Judged::Convert => convert(s, out, &mut work),
        Judged::List => listing::list(s, out),
        Judged::ToRelative => relative::to_relative(s, out),
        Judged::ToAbsolute => relative::to_absolute(s, out),
    }
}

// The first n records of the output; none where there are more than 64, which would be a long line.
fn written(out: &[u8], n: usize) -> &[u8] {
    if n > 64 { &[] } else { part(out, 0, 8 * n) }
}

// A line with the records of the output, where there are any.
fn print_written(rt: &impl Print, records: &[u8]) -> io::Result<()> {
    if !records.is_empty() {
        print!(rt; "   ")?;
        print_records(rt, records)?;
        println!(rt)?;
    }
    Ok(())
}

// What a check, a conversion, a listing or a translation answers, and the records that it wrote.
pub fn judge(rt: &impl Print, judged: Judged, case: &[u8], s: &[u8]) -> io::Result<()> {
    let mut out = [0u8; 73744];
    let verdict = answer(judged, s, &mut out);
    print!(rt; "{judged}")?;
    print_records(rt, case)?;
    print!(rt; ": ")?;
    print_answer(rt, verdict)?;
    match (judged, verdict) {
        (Judged::Convert | Judged::ToRelative | Judged::ToAbsolute, Ok(n)) => {
            print_written(rt, written(&out, n))
        }
        _ => Ok(()),
    }
}

// A budget that no case uses up but one that never ends.
const BUDGET: u64 = 1000000;

pub fn run(rt: &impl Print, s: &[u8], replies: &[u8]) -> io::Result<()> {
    let mut log = [0u8; 64];
    let ran = machine::run_routine(s, replies, &mut log, BUDGET);
    print!(rt; "run")?;
    print_records(rt, s)?;
    print_ran(rt, replies, ran, &log)
}

// The same of the base that the routine becomes, where that has 64 records at most: a longer one is run as if it were empty.
pub fn run_base_of(rt: &impl Print, s: &[u8], replies: &[u8]) -> io::Result<()> {
    let mut base = [0u8; 32768];
    let mut work = [0u8; 32768];
    let mut log = [0u8; 64];
    if let Ok(n) = convert(s, &mut base, &mut work) {
        let ran = machine::run_base(written(&base, n), replies, &mut log, BUDGET);
        print!(rt; "run the base of")?;
        print_records(rt, s)?;
        print_ran(rt, replies, ran, &log)?;
    }
    Ok(())
}

// What is found of the numbers in a record, by the table that has it or among the labels. One that finds nothing prints 0, as the
// stored output has it, and a call of no number is looked up as an end.
fn found(sought: Sought, s: &[u8], of: Record) -> usize {
    let mut t = [0u16; 513];
    match sought {
        Sought::LoopEnd => fill_stops(Sort::Loop, s, &mut t),
        Sought::LoopHeader => fill_headers(s, &mut t),
        Sought::End | Sought::ArmEnd | Sought::Unnumbered => {
            fill_stops(Sort::Conditional, s, &mut t)
        }
        Sought::Target => return place_of(target(s, of.x)),
        Sought::SecondTarget => return place_of(target2(s, of.x, of.y)),
    }
    usize::from(look(&t, usize::from(of.x)))
}

// A lookup of the numbers x and y in a record, of which 0 is not printed as y.
pub fn find(rt: &impl Print, sought: Sought, case: &[u8], s: &[u8], of: Record) -> io::Result<()> {
    print!(rt; "in")?;
    print_records(rt, case)?;
    print!(rt; " {sought} of {}", of.x)?;
    if of.y != 0 {
        print!(rt; " {}", of.y)?;
    }
    println!(rt; ": {}", found(sought, s, of))
}
