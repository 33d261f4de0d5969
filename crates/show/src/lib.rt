// What the programs of cases print, as text in a lent buffer: each writer puts as much of its text as fits at the start of the part lent,
// and answers how many bytes.
#![tactic(auto)]

ghost use Rattle.std.specs.Prelude.{◌≡◌, ◌≤◌, ◌-◌, []};
ghost use Rattle.rules.specs.Words.{get_or};
ghost use Rattle.print.specs.Printing.{Printed};
ghost use Rattle.show.specs.Text.{forms, written, answer};

use print::put_form;
use refusals::{number_of, place_of};
use rules::{Record, Verdict};
use words::put_instruction;

// The kinds 5 to 19 by their forms, in which x and y stand for the fields.
fn form_of(kind: u8) -> &'static [u8]
    requires { (5 ≤ kind) × (kind ≤ 19) }
    ensures { result.now ≡ get_or forms (kind - 5) [] }
{
    match kind {
        5 => b"[x]",
        6 => b"##[x]",
        7 => b"##[x][y]",
        8 => b"+ax{",
        9 => b"-ax{",
        10 => b"}{",
        11 => b"}",
        12 => b"+ax{*",
        13 => b"-ax{*",
        14 => b"*}",
        15 => b"R##x",
        16 => b"##R",
        17 => b"forward x",
        18 => b"backward x",
        _ => b"stop",
    }
}

// A record as the paper writes it.
pub fn put_written(r: Record, text: &mut [u8]) -> usize
    ensures { Printed (written r) text.old text.new result }
{
    match r.kind {
        1..=4 => put_instruction(r, text),
        5..=19 => put_form(form_of(r.kind), usize::from(r.x), usize::from(r.y), text),
        kind => put_form(b"kind x", usize::from(kind), 0, text),
    }
}

// `accepted` and the count, or `refused`, number and place.
#[tactic(auto, unfolding(crate::specs::Text::answer))]
pub fn put_answer(verdict: Verdict, text: &mut [u8]) -> usize
    ensures { Printed (answer verdict) text.old text.new result }
{
    match verdict {
        Ok(n) => put_form(b"accepted x\n", n, 0, text),
        Err(refusal) => put_form(
            b"refused x y\n",
            number_of(refusal),
            place_of(refusal),
            text,
        ),
    }
}
