// Reads a routine from standard input and prints its listing, or why it is refused: exit status 0. An input that cannot be read to its
// end prints nothing, an output that cannot be written stays as far as it came, and each puts one line on standard error: exit status 1.
#![tactic(auto)]

ghost use Rattle.std.specs.Prelude.{IfOk, length, ◌≤◌};

use rules::Refusal;
use std::io::Read;
use std::process::ExitCode;
use std::{fmt, io};

// Why a run failed.
#[derive(Clone, Copy)]
enum Fault {
    Input,
    Output,
}

impl fmt::Display for Fault {
    fn fmt<W: fmt::Write>(&self, f: &mut fmt::Formatter<W>) -> fmt::Result {
        match self {
            Fault::Input => write!(f, "list: standard input cannot be read"),
            Fault::Output => write!(f, "list: standard output cannot be written"),
        }
    }
}

// The first bytes of an input, as many as the buffer has room for, and how many more come behind them. Those are read and let go: of an
// input that is too long only its length matters. The casts are from `usize` to as wide a number, and back within the buffer.
fn read<'a>(input: &mut impl Read, buffer: &'a mut [u8]) -> io::Result<(&'a [u8], u64)>
    ensures { IfOk result (λ r. length r.0.now ≤ length buffer.old) }
{
    let room = buffer.len() as u64;
    let came = io::copy(&mut input.by_ref().take(room), &mut &mut *buffer)?;
    let rest = if came < room {
        0
    } else {
        io::copy(input, &mut io::sink())?
    };
    Ok((&buffer[..came.min(room) as usize], rest))
}

// `refused`, number, place: at most 50 bytes.
fn refuse(rt: &impl Print, refusal: Refusal) -> io::Result<()> {
    let mut line = [0u8; 50];
    let length = lines::refused_line(refusal, &mut line);
    rt.write_all(&line[..length])
}

// The listing, for which 73,744 bytes have room whatever the routine is, or the line of its refusal.
fn print(rt: &impl Print, routine: &[u8]) -> io::Result<()> {
    let mut text = [0u8; 73744];
    match listing::list(routine, &mut text) {
        Ok(length) => rt.write_all(&text[..length]),
        Err(refusal) => refuse(rt, refusal),
    }
}

// What is printed of an input: its start, and so many bytes more.
fn print_input(rt: &impl Print, start: &[u8], rest: u64) -> io::Result<()> {
    if rest == 0 {
        print(rt, start)
    } else if rest % 8 == 0 {
        refuse(rt, Refusal::Long)
    } else {
        refuse(rt, Refusal::Ragged)
    }
}

// A routine has at most 4,096 bytes.
fn run(rt: &impl Print, input: &mut impl Read) -> Result<(), Fault> {
    let mut buffer = [0u8; 4096];
    let (start, rest) = read(input, &mut buffer).map_err(|_| Fault::Input)?;
    print_input(rt, start, rest).map_err(|_| Fault::Output)
}

// Where the line of a fault cannot be written either, the exit status alone says so.
fn main(rt: HostRuntime) -> ExitCode {
    match run(&rt, &mut rt.stdin()) {
        Ok(()) => ExitCode::SUCCESS,
        Err(fault) => {
            rt.eprintln(fault).ok();
            ExitCode::FAILURE
        }
    }
}
