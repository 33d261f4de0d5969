// The forms with labels, behind their first bracket: `[s]`, `##[s]` and `##[s][t]`.
#![tactic(auto)]

ghost use Rattle.std.specs.Prelude.{◌≡◌};
ghost use Rattle.text.specs.Bytes.{ascii};
ghost use Rattle.text.specs.Forms.{follow};
ghost use Rattle.label_forms.specs.Gotos.{of_gotos};

use parts::{end_of, last_sign, stuck, take_name};
use runs::byte_at;
use text::Fit;

// `[s]`, behind its first sign.
#[tactic(auto, using(text::proofs::Reach::byte_there), unfolding(text::specs::Forms::follow, text::specs::Forms::part_of, text::specs::Forms::take_part, text::specs::Forms::x_at, text::specs::Forms::y_at))]
pub fn label(s: &[u8], at: usize) -> Fit
    ensures { result ≡ follow 5 (ascii "s]") s.now at 0 0 }
{
    match take_name(s, at) {
        Err(e) => stuck(5, e, 0, 0),
        Ok(e) => last_sign(5, b']', s, e, at + 1, 0),
    }
}

// `##[s][t]`, behind its second bracket. Not one function with `label`: a name sets y here and x there, and one for both would be handed
// the numbers of either outcome.
#[tactic(auto, using(text::proofs::Reach::byte_there), unfolding(text::specs::Forms::follow, text::specs::Forms::part_of, text::specs::Forms::take_part, text::specs::Forms::x_at, text::specs::Forms::y_at))]
fn second_label(s: &[u8], at: usize, x: usize) -> Fit
    ensures { result ≡ follow 7 (ascii "t]") s.now at x 0 }
{
    match take_name(s, at) {
        Err(e) => stuck(7, e, x, 0),
        Ok(e) => last_sign(7, b']', s, e, x, at + 1),
    }
}

// `##[s]` and `##[s][t]`, behind the first bracket. By two bytes, since by a slice's pattern the proof did not close.
#[tactic(auto, using(crate::proofs::Alike::gotos_are))]
pub fn gotos(s: &[u8], at: usize) -> Fit
    ensures { result ≡ of_gotos s.now at }
{
    match take_name(s, at) {
        Err(e) => stuck(6, e, 0, 0),
        Ok(e) => match (byte_at(s, e), byte_at(s, e + 1)) {
            (b']', b'[') => second_label(s, e + 2, at + 1),
            (b']', _) => end_of(6, s, e + 1, at + 1, 0),
            _ => stuck(6, e, at + 1, 0),
        },
    }
}
