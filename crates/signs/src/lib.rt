// The signs of the forms, and the letter of each: tables.
#![tactic(auto)]

ghost use Rattle.std.specs.Prelude.{◌≡◌};
ghost use Rattle.text.specs.Bytes.{byte_at};
ghost use Rattle.text.specs.Forms.{signs_of, letter_of};

// The signs of form number i, from 1, as the paper writes it; none where there is no such form.
#[tactic(auto, using(crate::proofs::Signs::formless))]
pub fn signs_of(i: usize) -> &'static [u8]
    ensures { result.now ≡ signs_of i }
{
    match i {
        1 => b"a",
        2 => b"+a",
        3 => b"-a",
        4 => b"##k",
        5 => b"[s]",
        6 => b"##[s]",
        7 => b"##[s][t]",
        8 => b"+a{",
        9 => b"-a{",
        10 => b"}{",
        11 => b"}",
        12 => b"+a{*",
        13 => b"-a{*",
        14 => b"*}",
        15 => b"R##k",
        16 => b"##R",
        17 => b"!",
        _ => b"",
    }
}

// Sign number j, from 0, of form number i; 0 past the last, as the definition has it, so that a form is followed to a sign that no text has.
pub fn sign(i: usize, j: usize) -> u8
    ensures { result ≡ byte_at (signs_of i) j }
{
    signs_of(i).get(j).copied().unwrap_or(0)
}

// The letter that x of form number i is written by: a, k or s; 0, as in the definition, where the form has none.
#[tactic(auto, unfolding(text::specs::Forms::letter_in))]
pub fn letter_of(i: usize) -> u8
    ensures { result ≡ letter_of i }
{
    match i {
        1 | 2 | 3 | 8 | 9 | 12 | 13 => b'a',
        4 | 15 => b'k',
        5 | 6 | 7 => b's',
        _ => 0,
    }
}
