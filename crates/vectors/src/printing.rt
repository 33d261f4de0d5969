// What is printed by way of a line, which has room for each of these.
use crate::part;
use rules::{Record, Verdict};
use show::{put_answer, put_written};
use std::io;

// A record as the paper writes it.
pub fn print_record(rt: &impl Print, record: Record) -> io::Result<()> {
    let mut line = [0u8; 64];
    let k = put_written(record, &mut line);
    rt.write_all(part(&line, 0, k))
}

// What was answered, to the end of the line.
pub fn print_answer(rt: &impl Print, verdict: Verdict) -> io::Result<()> {
    let mut line = [0u8; 64];
    let k = put_answer(verdict, &mut line);
    rt.write_all(part(&line, 0, k))
}
