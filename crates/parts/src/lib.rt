// Parts of a form along a text: a name, a number, and what stands behind the form.
#![tactic(auto)]

ghost use Rattle.std.specs.Prelude.{◌≡◌, false, ◌≤◌};
ghost use Rattle.text.specs.Forms.{take_run, fit, ending};
ghost use Rattle.parts.specs.LastSign.{last_sign};

use runs::{byte_at, span_of};
use text::{Fit, Sort};

// 1 to `most` bytes of a sort: the place behind them, or the first byte that cannot be.
#[tactic(auto, using(runs::proofs::Runs::span_reach), unfolding(text::specs::Forms::take_run))]
fn take_run(c: Sort, most: usize, s: &[u8], at: usize) -> Result<usize, usize>
    requires { most ≤ 16 }
    ensures { result ≡ take_run c most s.now at }
{
    match span_of(c, s, at, most + 1) {
        0 => Err(at),
        n if n <= most => Ok(at + n),
        _ => Err(at + most),
    }
}

// A name at `at` of the text: 1 to 16 letters or digits. A name and a number are one function, `take_run`, under the words of the forms.
pub fn take_name(s: &[u8], at: usize) -> Result<usize, usize>
    ensures { result ≡ take_run Sort.Named 16 s.now at }
{
    take_run(Sort::Named, 16, s, at)
}

// A number: 1 to 4 digits.
pub fn take_number(s: &[u8], at: usize) -> Result<usize, usize>
    ensures { result ≡ take_run Sort.Digit 4 s.now at }
{
    take_run(Sort::Digit, 4, s, at)
}

// The text follows form i so far, and not to its end. Here and below the form, the place and the numbers come singly: in a struct each
// call would be longer, since it changes one or two of them.
pub fn stuck(i: usize, far: usize, x: usize, y: usize) -> Fit
    ensures { result ≡ fit i false far x y }
{
    Fit {
        form: i,
        whole: false,
        far,
        x,
        y,
    }
}

// Behind a form: blanks, then `;` or the end of the text.
#[tactic(auto, using(runs::proofs::Runs::span_reach, text::proofs::Reach::byte_there), unfolding(text::specs::Forms::ending))]
pub fn end_of(i: usize, s: &[u8], at: usize, x: usize, y: usize) -> Fit
    ensures { result ≡ ending i s.now at x y }
{
    let e = at + span_of(Sort::Blank, s, at, s.len());
    if e == s.len() || byte_at(s, e) == b';' {
        Fit {
            form: i,
            whole: true,
            far: e + 1,
            x,
            y,
        }
    } else {
        stuck(i, e, x, y)
    }
}

// What is left of form i is one sign.
pub fn last_sign(i: usize, p: u8, s: &[u8], at: usize, x: usize, y: usize) -> Fit
    ensures { result ≡ last_sign i p s.now at x y }
{
    if s.get(at).copied() == Some(p) {
        end_of(i, s, at + 1, x, y)
    } else {
        stuck(i, at, x, y)
    }
}
