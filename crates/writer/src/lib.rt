// A routine written as text.
#![tactic(auto)]

ghost use Rattle.std.specs.Prelude.{◌≡◌, ◌≤◌, length};
ghost use Rattle.rules.specs.Numbers.{found};
ghost use Rattle.rules.specs.Record.{records};
ghost use Rattle.text.specs.Names.{entries};
ghost use Rattle.text.specs.Writing.{nameless};
ghost use Rattle.text.specs.Answers.{writing, text_written, writes, Answered};
ghost use Rattle.writer.specs.Named.{has_name};

use checks::check_records;
use names::{is_proper, list_fault};
use phrases::put_text;
use records::record_at;
use rules::{Notation, Record, Refusal};
use signs::letter_of;
use text::{TextRefusal, TextVerdict};

// A record's action has a proper name in the list, if the record has an action.
#[tactic(auto, unfolding(crate::specs::Named::has_name))]
fn has_name(names: &[u8], r: Record) -> bool
    ensures { result ≡ has_name (entries names.now) r }
{
    letter_of(usize::from(r.kind)) != b'a' || is_proper(names, usize::from(r.x))
}

// The first record whose action has no proper name.
fn first_nameless(routine: &[u8], names: &[u8]) -> Option<usize>
    ensures { result ≡ found (nameless (entries names.now) (records routine.now)) }
{
    for i in 0..routine.len() / 8 {
        if !has_name(names, record_at(routine, i + 1)) {
            return Some(i + 1);
        }
    }
    None
}

// The text where it has room, by way of a page that has room for every text, so that a refused call writes nothing. `listing` says why
// each has a function of its own.
fn show(routine: &[u8], names: &[u8], text: &mut [u8]) -> TextVerdict
    requires { length (text_written routine.now names.now) ≤ 10752 }
    ensures { Answered (writes 0 (text_written routine.now names.now) text.old) (text_written routine.now names.now) text.old result text.new }
{
    let mut page = [0u8; 10752];
    let length = put_text(routine, names, &mut page);
    if text.len() < length {
        return Err(Refusal::Room.into());
    }
    text[..length].copy_from_slice(&page[..length]);
    Ok(length)
}

// A routine written as text, and how many bytes it has. Refusals: 1 to 4 of the routine; 13 at 0 for a list of names that is ragged or
// above 999 entries, else at the first record whose action has no proper name in it; 8.
pub fn write_text(routine: &[u8], names: &[u8], text: &mut [u8]) -> TextVerdict
    ensures { Answered (writing routine.now names.now text.old) (text_written routine.now names.now) text.old result text.new }
{
    check_records(Notation::Routine, routine)?;
    if list_fault(names) {
        return Err(TextRefusal::Name(0));
    }
    match first_nameless(routine, names) {
        Some(p) => Err(TextRefusal::Name(p)),
        None => show(routine, names, text),
    }
}
