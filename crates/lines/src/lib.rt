// The lines that the listing program prints, as text in a lent buffer: those of a listing, and the line of a refusal.
#![tactic(auto)]

ghost use Rattle.rules.specs.Record.{records};
ghost use Rattle.print.specs.Printing.{Printed};
ghost use Rattle.lines.specs.Text.{line, lines, listing, refused, Line};

use print::{put_form, put_word};
use records::record_at;
use refusals::{number_of, place_of};
use rules::{Record, Refusal};
use words::put_instruction;

// Number and instruction.
fn put_line(i: usize, r: Record, text: &mut [u8]) -> usize
    ensures { Printed (line i r) text.old text.new result }
{
    let mut at = put_form(b"x ", i, 0, text);
    at += put_instruction(r, &mut text[at..]);
    at + put_word(b"\n", &mut text[at..])
}

// One line per base record, each into the unwritten rest of the text: a loop of its own, as `print::put_form` says.
fn put_lines(base: &[u8], text: &mut [u8]) -> usize
    ensures { Printed (lines 1 (records base.now)) text.old text.new result }
{
    let mut at = 0;
    for i in 0..base.len() / 8 {
        at += put_line(i + 1, record_at(base, i + 1), &mut text[at..]);
    }
    at
}

// `length`, source count and converted count; then the lines. As much of it as fits.
pub fn put_listing(n: usize, base: &[u8], text: &mut [u8]) -> usize
    ensures { Printed (listing n (records base.now)) text.old text.new result }
{
    let at = put_form(b"length x y\n", n, base.len() / 8, text);
    at + put_lines(base, &mut text[at..])
}

// The line of a refusal, `refused`, number, place, and how many bytes it has. A text that is too short is left as it is, with 0: how many
// bytes are written, as every writer here answers.
pub fn refused_line(refusal: Refusal, text: &mut [u8]) -> usize
    ensures { Line (refused refusal) text.old result text.new }
{
    // Two numbers of at most 20 digits each.
    let mut line = [0u8; 50];
    let length = put_form(
        b"refused x y\n",
        number_of(refusal),
        place_of(refusal),
        &mut line,
    );
    if text.len() < length {
        return 0;
    }
    text[..length].copy_from_slice(&line[..length]);
    length
}
