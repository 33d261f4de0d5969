// The records of a case.
ghost use Rattle.std.specs.Prelude.{◌≡◌, ◌≤◌, length, take};

use crate::printing::print_record;
use records::{number, put_record, record_at};
use rules::Record;
use std::io;

// How often a record stands in a row: a case has that in bytes 6 and 7, where 0 is once.
fn times_of(record: &[u8]) -> usize {
    match record {
        [.., low, high] => usize::from(number(*low, *high)).max(1),
        _ => 1,
    }
}

fn print_one(rt: &impl Print, record: &[u8]) -> io::Result<()> {
    let times = times_of(record);
    print!(rt; " ")?;
    if times != 1 {
        print!(rt; "{times} x ")?;
    }
    print_record(rt, record_at(record, 1))?;
    print!(rt; ";")
}

pub fn print_records(rt: &impl Print, s: &[u8]) -> io::Result<()> {
    for record in s.chunks_exact(8) {
        print_one(rt, record)?;
    }
    Ok(())
}

// A record so many times, where there is room; answers the bytes written.
fn repeat(record: Record, times: usize, out: &mut [u8]) -> usize
    ensures { result ≤ length out.new }
{
    let mut at = 0;
    for _ in 0..times {
        at += put_record(&mut out[at..], record);
    }
    at
}

// The records of a case at the start of a buffer, each as often as it stands; answers the bytes written.
pub fn expand(s: &[u8], out: &mut [u8]) -> usize
    ensures within { result ≤ length out.new }
    ensures counted { result ≡ length (take result out.new) }
{
    let mut at = 0;
    for record in s.chunks_exact(8) {
        at += repeat(record_at(record, 1), times_of(record), &mut out[at..]);
    }
    at
}
