// Sorts of bytes, and runs of them along a text.
#![tactic(auto)]

ghost use Rattle.std.specs.Prelude.{◌≡◌};
ghost use Rattle.text.specs.Bytes.{byte_at, blank, digit, letter, in_sort, span};

use text::Sort;

// The byte of a text behind its first `at`; 0 past the end, as the definition reads a text, which has no byte 0 in a form.
pub fn byte_at(s: &[u8], at: usize) -> u8
    ensures { result ≡ byte_at s.now at }
{
    s.get(at).copied().unwrap_or(0)
}

// Whether a byte is of a sort.
#[tactic(auto, unfolding(text::specs::Bytes::in_sort, text::specs::Bytes::blank, text::specs::Bytes::digit, text::specs::Bytes::letter))]
pub fn in_sort(c: Sort, b: u8) -> bool
    ensures { result ≡ in_sort c b }
{
    match c {
        Sort::Blank => matches!(b, 9 | 10 | 13 | 32),
        Sort::Digit => b.is_ascii_digit(),
        Sort::Named => b.is_ascii_alphanumeric(),
    }
}

// How many bytes of a sort follow one another from `at` on, n at most. A loop: of `skip`, `take`, `take_while` and `count` in a chain the
// proof did not close against this contract.
#[tactic(auto, using(crate::proofs::Runs::span_on, crate::proofs::Runs::span_off, crate::proofs::Runs::span_reach), unfolding(text::specs::Bytes::run))]
pub fn span_of(c: Sort, s: &[u8], at: usize, n: usize) -> usize
    ensures { result ≡ span c s.now at n }
{
    for i in 0..n {
        if !in_sort(c, byte_at(s, at + i)) {
            return i;
        }
    }
    n
}
