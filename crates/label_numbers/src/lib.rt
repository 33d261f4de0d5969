// Labels numbered by first appearance. No name is copied: a label is known by the place where it first stood, and the text is compared
// with itself.
#![tactic(auto)]

ghost use Rattle.std.specs.Prelude.{◌≡◌, ◌≤◌, length};
ghost use Rattle.rules.specs.Numbers.{found};
ghost use Rattle.text.specs.declared.Sort.TheVariants.{Named};
ghost use Rattle.text.specs.Grammar.{All};
ghost use Rattle.text.specs.Names.{name_at, same, place_of};
ghost use Rattle.label_numbers.specs.Labels.{labels_of};

use names::name_at;
use runs::{byte_at, in_sort};
use text::Sort;

// The name at q is this one. How long the name at q is, is not asked first, since most labels differ.
fn is_same(s: &[u8], name: &[u8], q: usize) -> bool
    requires { All Named name.now × (length name.now ≤ 16) }
    ensures { result ≡ same name.now (name_at s.now q) }
{
    let n = name.len();
    if s.len() < q {
        return n == 0;
    }
    // `starts_with` alone would do for the two tests that follow, but misses the bar of speed: most labels differ in their last byte.
    let rest = &s[q..];
    if rest.len() < n {
        return false;
    }
    if n != 0 && name[n - 1] != rest[n - 1] {
        return false;
    }
    rest.starts_with(name) && (n == 16 || !in_sort(Sort::Named, byte_at(s, q + n)))
}

// The number of the label at `at` among those that first stood at these places.
pub fn label_number(s: &[u8], firsts: &[usize], at: usize) -> Option<usize>
    ensures { result ≡ found (place_of (name_at s.now at) (labels_of s.now firsts.now)) }
{
    let name = name_at(s, at);
    for (i, q) in firsts.iter().enumerate() {
        if is_same(s, name, *q) {
            return Some(i + 1);
        }
    }
    None
}
