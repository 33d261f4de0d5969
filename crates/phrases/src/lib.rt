// The text of a routine in a lent buffer: each writer puts as much of its text as fits at the start of the part lent, and answers how many
// bytes.
#![tactic(auto)]

ghost use Rattle.std.specs.Prelude.{◌≡◌, cond, [], leb};
ghost use Rattle.rules.specs.Record.{records};
ghost use Rattle.text.specs.Bytes.{ascii};
ghost use Rattle.text.specs.Names.{entries};
ghost use Rattle.text.specs.Writing.{label_name, written_sign, form_of, written, text_of};
ghost use Rattle.print.specs.Printing.{Printed};

use names::name_of;
use print::{put_byte, put_form, put_number, put_word};
use records::record_at;
use rules::Record;
use signs::signs_of;

// A label: L and its number.
#[tactic(auto, using(crate::proofs::Signs::same_label))]
fn put_label(n: u16, text: &mut [u8]) -> usize
    ensures { Printed (label_name n) text.old text.new result }
{
    put_form(b"Lx", usize::from(n), 0, text)
}

// A sign of a form: a name, a number, a label, or itself.
#[tactic(auto, using(crate::proofs::Signs::same_decimal), unfolding(text::specs::Writing::written_sign))]
fn put_sign(names: &[u8], p: u8, r: Record, text: &mut [u8]) -> usize
    ensures { Printed (written_sign (entries names.now) r p) text.old text.new result }
{
    match p {
        b'a' => put_word(name_of(names, usize::from(r.x)), text),
        b'k' => put_number(usize::from(r.x), text),
        b's' => put_label(r.x, text),
        b't' => put_label(r.y, text),
        _ => put_byte(p, text),
    }
}

// The form of a record: `!` for ##0.
#[tactic(auto, unfolding(text::specs::Writing::form_of))]
fn form_of(r: Record) -> usize
    ensures { result ≡ form_of r }
{
    match (r.kind, r.x) {
        (4, 0) => 17,
        (kind, _) => usize::from(kind),
    }
}

// The instruction of a record, each sign of its form into the unwritten rest.
fn put_instruction(names: &[u8], r: Record, text: &mut [u8]) -> usize
    ensures { Printed (written (entries names.now) r) text.old text.new result }
{
    let form = signs_of(form_of(r));
    let mut at = 0;
    for p in form {
        at += put_sign(names, *p, r, &mut text[at..]);
    }
    at
}

// What stands in front of instruction i: nothing in front of the first. A form, put out byte by byte: as a word it is copied by a call.
#[tactic(auto, unfolding(print::specs::Text::filled, print::specs::Text::filled_sign))]
fn put_joint(i: usize, text: &mut [u8]) -> usize
    ensures { Printed (cond (leb i 1) [] (ascii "; ")) text.old text.new result }
{
    if i <= 1 {
        0
    } else {
        put_form(b"; ", 0, 0, text)
    }
}

// The text of a routine, each instruction into the unwritten rest: a loop of its own, as `print::put_form` says.
pub fn put_text(routine: &[u8], names: &[u8], text: &mut [u8]) -> usize
    ensures { Printed (text_of (entries names.now) (records routine.now)) text.old text.new result }
{
    let mut at = 0;
    for i in 0..routine.len() / 8 {
        at += put_joint(i + 1, &mut text[at..]);
        at += put_instruction(names, record_at(routine, i + 1), &mut text[at..]);
    }
    at
}
