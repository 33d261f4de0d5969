// The form that a text follows furthest. Forms that begin alike are followed together, and parted by the first byte in which they differ.
#![tactic(auto)]

ghost use Rattle.std.specs.Prelude.{◌≡◌};
ghost use Rattle.text.specs.Forms.{best_of};
ghost use Rattle.forms.specs.Families.{of_tests, of_ends};

use jump_forms::{actions, jumps};
use label_forms::label;
use parts::{end_of, last_sign, stuck, take_name};
use runs::{byte_at, in_sort};
use text::{Fit, Sort};

// `+a`, `+a{` and `+a{*`, or the same with `-`, behind their first sign.
#[tactic(auto, using(crate::proofs::Families::tests_are))]
fn tests(i: usize, j: usize, k: usize, s: &[u8], at: usize) -> Fit
    ensures { result ≡ of_tests i j k s.now at }
{
    match take_name(s, at) {
        Err(e) => stuck(i, e, 0, 0),
        Ok(e) => match (byte_at(s, e), byte_at(s, e + 1)) {
            (b'{', b'*') => end_of(k, s, e + 2, at + 1, 0),
            (b'{', _) => end_of(j, s, e + 1, at + 1, 0),
            _ => end_of(i, s, e, at + 1, 0),
        },
    }
}

// `}{` and `}`, behind the first sign. A text that goes on as neither does is still at the first of the two.
#[tactic(auto, using(text::proofs::Reach::byte_there, crate::proofs::Families::ends_are), unfolding(text::specs::Forms::further))]
fn ends(s: &[u8], at: usize) -> Fit
    ensures { result ≡ of_ends s.now at }
{
    if byte_at(s, at) == b'{' {
        return end_of(10, s, at + 1, 0, 0);
    }
    let f = end_of(11, s, at, 0, 0);
    if at < f.far { f } else { stuck(10, at, 0, 0) }
}

// The form that the text follows furthest from `at` on.
#[tactic(auto, using(text::proofs::Reach::byte_there, crate::proofs::Starts::best_is))]
pub fn best(s: &[u8], at: usize) -> Fit
    ensures { result ≡ best_of s.now at }
{
    match byte_at(s, at) {
        b if in_sort(Sort::Named, b) => actions(s, at),
        b'!' => end_of(17, s, at + 1, 0, 0),
        b'#' => jumps(s, at + 1),
        b'*' => last_sign(14, b'}', s, at + 1, 0, 0),
        b'+' => tests(2, 8, 12, s, at + 1),
        b'-' => tests(3, 9, 13, s, at + 1),
        b'[' => label(s, at + 1),
        b'}' => ends(s, at + 1),
        _ => stuck(0, at, 0, 0),
    }
}
