// The places that a routine's records add in its base, by the table: refusal 6 and the converted length.
#![tactic(auto)]

ghost use Rattle.std.specs.Prelude.{◌≡◌, ◌≤◌};
ghost use Rattle.rules.specs.Instruction.{ops};
ghost use Rattle.rules.specs.Numbers.{found};
ghost use Rattle.rules.specs.Skip.{added_by, skip};
ghost use Rattle.rules.specs.Table.{row_of};
ghost use Rattle.growth.specs.Length.{test_kind, base_length};

use kinds::row_of;
use rules::Notation;

// A plain test, kind 2 or 3.
#[tactic(auto, unfolding(crate::specs::Length::test_kind))]
fn is_test(kind: u8) -> bool
    ensures { result ≡ test_kind kind }
{
    matches!(kind, 2 | 3)
}

// The places that a record of this kind adds in the base of a routine of n records: what its row of the table says.
#[tactic(auto, using(crate::proofs::Lengths::row_read))]
fn added(kind: u8, n: usize) -> usize
    requires { n ≤ 512 }
    ensures { result ≡ added_by n (row_of Notation.Routine kind) }
{
    match row_of(Notation::Routine, kind) {
        Some(row) => row.once + row.each * n,
        None => 0,
    }
}

// The place of refusal 6: the lowest plain test that stands directly before a kind that adds places, since skipping one source record
// would then land inside its expansion.
#[tactic(auto, using(crate::proofs::Lengths::skips_read))]
pub fn skip_place(s: &[u8]) -> Option<usize>
    ensures { result ≡ found (skip (ops s.now)) }
{
    for k in 1..s.len() / 8 {
        if is_test(s[8 * (k - 1)]) && added(s[8 * k], 1) != 0 {
            return Some(k);
        }
    }
    None
}

// The converted length of a file of at most 512 records, and 0 of a longer one, which its promise says and no caller has: n, and the
// places that each record adds in the base of a routine of n records. The most that there can be, 512 returns, is some 1.6 million.
#[tactic(auto, using(crate::proofs::Lengths::sums_read))]
pub fn base_count(s: &[u8]) -> usize
    ensures { result ≡ base_length s.now }
{
    let n = s.len() / 8;
    if 512 < n {
        return 0;
    }
    let mut length = n;
    for k in 0..n {
        length += added(s[8 * k], n);
    }
    length
}
