// What a record is to the items that hold bodies, by its kind.
#![tactic(auto)]

ghost use Rattle.std.specs.Prelude.{◌≡◌};
ghost use Rattle.laws.proofs.Partners.{role_of_kind};
ghost use Rattle.partners.specs.Roles.{sort_of, role_said};

// The two sorts of item that hold bodies.
#[derive(Clone, Copy, Debug, PartialEq, Eq)]
pub enum Sort {
    Conditional,
    Loop,
}

// What a record is to the items of one sort: it opens one, parts one, ends one, or does none of these.
#[derive(Clone, Copy, Debug, PartialEq, Eq)]
pub enum Role {
    Opens,
    Parts,
    Ends,
    Other,
}

// The role of a record, by its kind.
#[tactic(auto, unfolding(laws::proofs::Partners::role_of_kind, crate::specs::Roles::role_said))]
pub fn role_of(sort: Sort, kind: u8) -> Role
    ensures { result ≡ role_said (role_of_kind (sort_of sort) kind) }
{
    match (sort, kind) {
        (Sort::Conditional, 8 | 9) | (Sort::Loop, 12 | 13) => Role::Opens,
        (Sort::Conditional, 10) => Role::Parts,
        (Sort::Conditional, 11) | (Sort::Loop, 14) => Role::Ends,
        _ => Role::Other,
    }
}
