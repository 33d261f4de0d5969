// Well-built routines. The whole routine must be one body: a body reader and an item reader call each other while the number of unread
// records falls. There is no limit on depth.
ghost use Rattle.std.specs.Prelude.{◌≡◌, ◌≤◌, ◌<◌};
ghost use Rattle.rules.specs.Record.{count};
ghost use Rattle.rules.specs.Instruction.{ops, conditional, loop};
ghost use Rattle.rules.specs.Nesting as rule;
ghost use Rattle.rules.specs.Numbers.{found};
ghost use Rattle.laws.proofs.Partners.{role_of_kind};
ghost use Rattle.partners.specs.Roles.{sort_of};
ghost use Rattle.shape.specs.Reading.{start_of, behind_of, BodyRead, ItemRead};

use partners::{Role, Sort, role_of};

// What a record is to a body: a header, an item alone, or a separator or an end, which starts no item.
#[derive(Clone, Copy, Debug, PartialEq, Eq)]
pub enum Start {
    Header(Sort),
    Alone,
    Shut,
}

// What a reader answers: how many records of the file are read then; or the separator or end that does not fit; or, where the file
// ends inside an item, the lowest opener. No Result of an enum: that is half as long again, and the readers, which call each other as
// deep as items nest, then need more machine stack than the header promises.
#[derive(Clone, Copy, Debug, PartialEq, Eq)]
pub enum Read {
    To(usize),
    Misfit(usize),
    Open(usize),
}

// What follows a body inside an item: the item is read, or the separator with this number has a second body behind it.
#[derive(Clone, Copy, Debug, PartialEq, Eq)]
pub enum Behind {
    Done(Read),
    Second(usize),
}

#[tactic(auto, unfolding(crate::specs::Reading::start_of, partners::specs::Roles::role_said))]
fn start_of(kind: u8) -> Start
    ensures { result ≡ start_of (role_of_kind conditional kind) (role_of_kind loop kind) }
{
    match (role_of(Sort::Conditional, kind), role_of(Sort::Loop, kind)) {
        (Role::Opens, _) => Start::Header(Sort::Conditional),
        (Role::Other, Role::Opens) => Start::Header(Sort::Loop),
        (Role::Other, Role::Other) => Start::Alone,
        _ => Start::Shut,
    }
}

// Behind a body of the item whose header is the record after the first `at`. The file's end leaves that header open, and it is lower
// than any opener inside.
#[tactic(auto, unfolding(crate::specs::Reading::behind_of, crate::specs::Reading::behind_by, partners::specs::Roles::role_said))]
fn after_body(s: &[u8], at: usize, sort: Sort, body: Read) -> Behind
    requires { at < count s.now }
    ensures { result ≡ behind_of s.now at (sort_of sort) body }
{
    match body {
        Read::To(m) if m < s.len() / 8 => match role_of(sort, s[8 * m]) {
            Role::Parts => Behind::Second(m + 1),
            Role::Ends => Behind::Done(Read::To(m + 1)),
            Role::Opens | Role::Other => Behind::Done(Read::Misfit(m + 1)),
        },
        Read::Misfit(k) => Behind::Done(Read::Misfit(k)),
        Read::To(_) | Read::Open(_) => Behind::Done(Read::Open(at + 1)),
    }
}

// A body is a run of items: from the record after the first `at` to the first separator or end that belongs to none of them, or to the
// end of the file.
#[cycle(read_body_read_item)]
fn read_body(s: &[u8], at: usize) -> Read
    requires { at ≤ count s.now }
    ensures { BodyRead s.now at result }
{
    let mut i = at;
    while i < s.len() / 8 {
        match read_item(s, i) {
            Read::To(m) => {
                if m == i {
                    return Read::To(i);
                }
                i = m;
            }
            Read::Misfit(k) => return Read::Misfit(k),
            Read::Open(k) => return Read::Open(k),
        }
    }
    Read::To(i)
}

// An item: a header with one or two bodies and its end, or a record alone. Nothing is read where a separator or an end stands.
#[cycle(read_body_read_item)]
fn read_item(s: &[u8], at: usize) -> Read
    requires { at < count s.now }
    ensures { ItemRead s.now at result }
{
    match start_of(s[8 * at]) {
        Start::Alone => Read::To(at + 1),
        Start::Shut => Read::To(at),
        Start::Header(sort) => match after_body(s, at, sort, read_body(s, at + 1)) {
            Behind::Done(r) => r,
            Behind::Second(m) => match after_body(s, at, sort, read_body(s, m)) {
                Behind::Done(r) => r,
                // A second separator doesn't fit.
                Behind::Second(k) => Read::Misfit(k),
            },
        },
    }
}

// The place of refusal 5: the first separator or end that does not fit the innermost open item; if none, the lowest opener never
// closed; none where the routine is one body. The readers call each other as deep as the items nest, so the file is not a long one.
pub(crate) fn nesting_place(s: &[u8]) -> Option<usize>
    requires { count s.now ≤ 512 }
    ensures { result ≡ found (rule.nesting (ops s.now)) }
{
    match read_body(s, 0) {
        Read::To(m) => if m < s.len() / 8 { Some(m + 1) } else { None },
        Read::Misfit(k) => Some(k),
        Read::Open(k) => Some(k),
    }
}
