// The listing of a routine, as text in a lent buffer: the base that it becomes, a line for each record.
#![tactic(auto)]

ghost use Rattle.std.specs.Prelude.{[], ◌∷◌, ◌≤◌, length};
ghost use Rattle.rules.specs.Record.{records};
ghost use Rattle.rules.specs.Refusals.{verdict};
ghost use Rattle.lines.specs.Text.{listing};
ghost use Rattle.listing.specs.Text.{text_of};
ghost use Rattle.listing.specs.Answers.{room_for, listing_of, Listed};

use lines::put_listing;
use lower::convert;
use rules::{Refusal, Verdict};

// The text where it has room, by way of an array that has room for every listing, so that a refused call prints nothing. `writer` has
// the like: one function for both would be public, and ask something of the text that it is given.
fn show(n: usize, base: &[u8], text: &mut [u8]) -> Verdict
    requires { length (listing n (records base.now)) ≤ 73744 }
    ensures { Listed (verdict (room_for (listing n (records base.now)) text.old ∷ []) (length (listing n (records base.now)))) (listing n (records base.now)) text.old result text.new }
{
    let mut page = [0u8; 73744];
    let length = put_listing(n, base, &mut page);
    if text.len() < length {
        return Err(Refusal::Room);
    }
    text[..length].copy_from_slice(&page[..length]);
    Ok(length)
}

// The listing of a routine at the start of the text, and how many bytes it has. A refusal, the routine's own or 8 where the text
// is too short, prints nothing. The base has at most 4,096 records of eight bytes.
pub fn list(routine: &[u8], text: &mut [u8]) -> Verdict
    ensures { Listed (listing_of routine.now text.old) (text_of routine.now) text.old result text.new }
{
    let mut base = [0u8; 32768];
    let mut work = [0u8; 32768];
    let n = convert(routine, &mut base, &mut work)?;
    show(routine.len() / 8, &base[..8 * n], text)
}
