// Actions looked up by their name through an index of the list: names are parted by a number that their bytes give, and each entry
// leads to the next one with the same number. The first entry of each number is in one table, and where each entry leads in another.
// The tables are lent as two slices: a struct of both would be two structs, since a fill writes to them and a look-up reads.
#![tactic(auto)]

ghost use Rattle.std.specs.Prelude.{◌≡◌, ◌<◌, length, get_or};
ghost use Rattle.rules.specs.Numbers.{found};
ghost use Rattle.text.specs.Names.{name_at, entries, padded};
ghost use Rattle.name_index.specs.Index.{part_of, along, looked, Fills};

use names::name_at;

// The name at `at` of the text, padded with zeros.
fn padded_name(s: &[u8], at: usize) -> [u8; 16]
    ensures { result ≡ padded 16 (name_at s.now at) }
{
    let mut name = [0u8; 16];
    let bytes = name_at(s, at);
    name[..bytes.len()].copy_from_slice(bytes);
    name
}

// The number, below 512, of these bytes.
#[tactic(auto, using(crate::proofs::Bytes::part_on, crate::proofs::Bytes::part_end))]
fn part_of(name: &[u8]) -> usize
    ensures { (result ≡ part_of name.now) × (result < 512) }
{
    let mut h: usize = 0;
    for b in name {
        h = (13 * h + usize::from(*b)) % 512;
    }
    h
}

// Entry number k of a table, from 0; 0 where there is none, as the tables have it: no entry has number 0.
fn number_in(t: &[u16], k: usize) -> usize
    ensures { result ≡ get_or t.now k 0 }
{
    usize::from(t.get(k).copied().unwrap_or(0))
}

// The first entry that is the name, from entry e along where each leads.
fn go_along(l: &[u8], next: &[u16], name: &[u8], from: usize) -> Option<usize>
    requires { length name.now ≡ 16 }
    ensures { result ≡ found (along (length (entries l.now)) (entries l.now) next.now name.now from) }
{
    let count = l.len() / 16;
    let mut e = from;
    for _ in 0..count {
        if e == 0 || count < e {
            return None;
        }
        if name == &l[16 * (e - 1)..16 * e] {
            return Some(e);
        }
        e = number_in(next, e);
    }
    None
}

// The number of the action whose name is at `at` of the text, by two tables: its first place in the list where they are the list's index.
pub fn indexed_action(l: &[u8], first: &[u16], next: &[u16], s: &[u8], at: usize) -> Option<usize>
    ensures { result ≡ found (looked (entries l.now) first.now next.now (padded 16 (name_at s.now at))) }
{
    let name = padded_name(s, at);
    go_along(l, next, &name, number_in(first, part_of(&name)))
}

// The list's index into two tables: the entries from the last to the first, each in front of those with its number. Says whether the
// tables have room for it, before anything is written; where they have none, they are left as they are. An entry's number is at most 999,
// which is proved at the cast.
pub fn fill_index(l: &[u8], first: &mut [u16], next: &mut [u16]) -> bool
    ensures { Fills l.now first.old next.old result first.new next.new }
{
    let count = l.len() / 16;
    if 999 < count || first.len() < 512 || next.len() <= count {
        return false;
    }
    for e in (1..=count).rev() {
        let h = part_of(&l[16 * (e - 1)..16 * e]);
        next[e] = first[h];
        first[h] = e as u16;
    }
    true
}
