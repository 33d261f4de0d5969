// Text in a lent buffer: each writer puts as much of its text as fits at the start of the part lent, and answers how many bytes. No
// `Display`: the contract says what the buffer then holds, and C reads it.
#![tactic(auto)]

ghost use Rattle.std.specs.Prelude.{[], ◌∷◌};
ghost use Rattle.print.specs.Text.{decimal, filled_sign, filled};
ghost use Rattle.print.specs.Printing.{Printed};

// One byte. A word of one would do, but is copied by a call each time, and a text took half as long again to write.
pub fn put_byte(byte: u8, text: &mut [u8]) -> usize
    ensures { Printed (byte ∷ []) text.old text.new result }
{
    if text.is_empty() {
        return 0;
    }
    text[0] = byte;
    1
}

// A word. How much fits is settled before the loop, which then only copies.
pub fn put_word(word: &[u8], text: &mut [u8]) -> usize
    ensures { Printed word.now text.old text.new result }
{
    let n = text.len().min(word.len());
    for i in 0..n {
        text[i] = word[i];
    }
    n
}

// A number in decimal: its last digit behind the digits of its tenth.
pub fn put_number(n: usize, text: &mut [u8]) -> usize
    ensures { Printed (decimal n) text.old text.new result }
{
    if n < 10 {
        return put_byte(48 + n as u8, text);
    }
    let at = put_number(n / 10, text);
    at + put_byte(48 + (n % 10) as u8, &mut text[at..])
}

// A sign of a form: x and y stand for the two numbers, a dot for nothing, every other sign for itself.
#[tactic(auto, unfolding(crate::specs::Text::filled_sign))]
fn put_sign(p: u8, x: usize, y: usize, text: &mut [u8]) -> usize
    ensures { Printed (filled_sign x y p) text.old text.new result }
{
    match p {
        b'x' => put_number(x, text),
        b'y' => put_number(y, text),
        b'.' => 0,
        _ => put_byte(p, text),
    }
}

// A form filled with two numbers, each sign into the unwritten rest. `lines` and `phrases` have such a loop too: one writer over items
// would take a trait, and in each place a type that says what an item is, for a loop of three lines.
pub fn put_form(form: &[u8], x: usize, y: usize, text: &mut [u8]) -> usize
    ensures { Printed (filled form.now x y) text.old text.new result }
{
    let mut at = 0;
    for p in form {
        at += put_sign(*p, x, y, &mut text[at..]);
    }
    at
}
