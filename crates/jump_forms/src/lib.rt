// The forms with numbers, and those that begin as they do: `##k`, `##[s]`, `##[s][t]` and `##R`; `R##k` and `a`.
#![tactic(auto)]

ghost use Rattle.std.specs.Prelude.{◌≡◌};
ghost use Rattle.text.specs.Bytes.{ascii};
ghost use Rattle.text.specs.Forms.{follow, fit_of};
ghost use Rattle.jump_forms.specs.Jumps.{of_jumps, of_calls};

use label_forms::gotos;
use parts::{end_of, stuck, take_name, take_number};
use runs::byte_at;
use text::Fit;

// What is left of form i is a number.
#[tactic(auto, unfolding(text::specs::Forms::follow, text::specs::Forms::part_of, text::specs::Forms::take_part, text::specs::Forms::x_at, text::specs::Forms::y_at))]
fn number_left(i: usize, s: &[u8], at: usize) -> Fit
    ensures { result ≡ follow i (ascii "k") s.now at 0 0 }
{
    match take_number(s, at) {
        Err(e) => stuck(i, e, 0, 0),
        Ok(e) => end_of(i, s, e, at + 1, 0),
    }
}

// `##k`, `##[s]`, `##[s][t]` and `##R`, behind the first sign.
#[tactic(auto, using(text::proofs::Reach::byte_there, crate::proofs::Alike::jumps_are))]
pub fn jumps(s: &[u8], at: usize) -> Fit
    ensures { result ≡ of_jumps s.now at }
{
    if byte_at(s, at) != b'#' {
        return stuck(4, at, 0, 0);
    }
    match byte_at(s, at + 1) {
        b'[' => gotos(s, at + 2),
        b'R' => end_of(16, s, at + 2, 0, 0),
        _ => number_left(4, s, at + 1),
    }
}

// `a`. Not one function with `number_left`: the part that is taken, a name or a number, would be an argument, and neither gets shorter.
#[tactic(auto, unfolding(text::specs::Forms::follow, text::specs::Forms::part_of, text::specs::Forms::take_part, text::specs::Forms::x_at, text::specs::Forms::y_at))]
fn action(s: &[u8], at: usize) -> Fit
    ensures { result ≡ fit_of 1 s.now at }
{
    match take_name(s, at) {
        Err(e) => stuck(1, e, 0, 0),
        Ok(e) => end_of(1, s, e, at + 1, 0),
    }
}

// `a` and `R##k`. Byte by byte: with a pattern over the slice from `at` on the proof did not close.
#[tactic(auto, using(text::proofs::Reach::byte_there, crate::proofs::Alike::calls_are))]
pub fn actions(s: &[u8], at: usize) -> Fit
    ensures { result ≡ of_calls s.now at }
{
    if byte_at(s, at) != b'R' || byte_at(s, at + 1) != b'#' {
        action(s, at)
    } else if byte_at(s, at + 2) != b'#' {
        stuck(15, at + 2, 0, 0)
    } else {
        number_left(15, s, at + 3)
    }
}
