// Names and numbers of a text: whether an entry of the lent list is a proper name, the name itself, and the number that digits
// are. Where there is no such entry a function is left early: with one test more in each line below it reads no better.
#![tactic(auto)]

ghost use Rattle.std.specs.Prelude.{◌≡◌};
ghost use Rattle.std.specs.List.{list_all};
ghost use Rattle.rules.specs.Words.{eqb};
ghost use Rattle.text.specs.Names.{name_at, number_at, entries, name_of, proper, list_fault};

use runs::{byte_at, span_of};
use text::Sort;

// The list is ragged or above 999 entries.
#[tactic(auto, unfolding(text::specs::Names::list_fault))]
pub fn list_fault(l: &[u8]) -> bool
    ensures { result ≡ list_fault l.now }
{
    l.len() % 16 != 0 || 999 < l.len() / 16
}

// Nothing but zeros.
fn is_zeros(s: &[u8]) -> bool
    ensures { result ≡ list_all (λ b. eqb b 0) s.now }
{
    s.iter().all(|b| *b == 0)
}

// The name of action e in the list is a proper one: letters or digits, padded with zeros, and not empty.
#[tactic(auto, using(crate::proofs::Same::run_most))]
pub fn is_proper(l: &[u8], e: usize) -> bool
    ensures { result ≡ proper (entries l.now) e }
{
    let k = e.saturating_sub(1);
    if l.len() / 16 <= k {
        return false;
    }
    let from = 16 * k;
    let n = span_of(Sort::Named, l, from, 16);
    n != 0 && is_zeros(&l[from + n..from + 16])
}

// The name at `at` of a text: letters or digits, 16 at most.
#[tactic(auto, using(crate::proofs::Same::run_most))]
pub fn name_at(s: &[u8], at: usize) -> &[u8]
    ensures { result.now ≡ name_at s.now at }
{
    let from = at.min(s.len());
    let n = span_of(Sort::Named, s, from, 16);
    &s[from..from + n]
}

// The name of action e in the list.
pub fn name_of(l: &[u8], e: usize) -> &[u8]
    ensures { result.now ≡ name_of (entries l.now) e }
{
    let k = e.saturating_sub(1);
    if l.len() / 16 <= k {
        &[]
    } else {
        name_at(l, 16 * k)
    }
}

// The number whose digits start at `at`, four at most.
pub fn number_at(s: &[u8], at: usize) -> u16
    ensures { result ≡ number_at s.now at }
{
    if s.len() < at {
        return 0;
    }
    let mut v: u16 = 0;
    for i in 0..4 {
        let b = byte_at(s, at + i);
        if !b.is_ascii_digit() {
            return v;
        }
        v = 10 * v + u16::from(b - b'0');
    }
    v
}
