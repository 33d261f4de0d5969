// The words of a listing, as text in a lent buffer: each writer puts as much of its text as fits at the start of the part lent, and
// answers how many bytes.
#![tactic(auto)]

ghost use Rattle.print.specs.Printing.{Printed};
ghost use Rattle.rules.specs.Instruction.{act_of};
ghost use Rattle.words.specs.Text.{action, sign, instruction};

use print::{put_form, put_word};
use rules::Record;

// An outside action by its number, or one of the counter stack's own.
#[tactic(auto, unfolding(crate::specs::Text::action, rules::specs::Instruction::act_of, print::specs::Text::filled, print::specs::Text::filled_sign))]
fn put_action(x: usize, y: usize, text: &mut [u8]) -> usize
    ensures { Printed (action (act_of x y)) text.old text.new result }
{
    match x {
        1001 => put_form(b"push(y)", x, y, text),
        1002 => put_form(b"pop", x, y, text),
        1003 => put_form(b"topeq(y)", x, y, text),
        _ => put_form(b"ax", x, y, text),
    }
}

// The sign of kind 2 or 3.
#[tactic(auto, unfolding(crate::specs::Text::sign))]
fn put_sign(kind: u8, text: &mut [u8]) -> usize
    ensures { Printed (sign kind) text.old text.new result }
{
    match kind {
        2 => put_word(b"+", text),
        3 => put_word(b"-", text),
        _ => 0,
    }
}

// The instruction of a base record: ##k, or an action with its sign in front.
#[tactic(auto, unfolding(crate::specs::Text::instruction, print::specs::Text::filled, print::specs::Text::filled_sign))]
pub fn put_instruction(r: Record, text: &mut [u8]) -> usize
    ensures { Printed (instruction r) text.old text.new result }
{
    let x = usize::from(r.x);
    if r.kind == 4 {
        return put_form(b"##x", x, 0, text);
    }
    let at = put_sign(r.kind, text);
    at + put_action(x, usize::from(r.y), &mut text[at..])
}
