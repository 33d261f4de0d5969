// The paper's numbers: of a refusal, its place, and of a status.
#![tactic(auto)]

ghost use Rattle.std.specs.Prelude.{◌≡◌};
ghost use Rattle.rules.specs.Refusals.{told};
ghost use Rattle.rules.specs.Run.{status_number};

use rules::{Refusal, Status};

// The paper's number of a refusal.
#[tactic(auto, unfolding(rules::specs::Refusals::told))]
pub fn number_of(refusal: Refusal) -> usize
    ensures { result ≡ (told refusal).number }
{
    match refusal {
        Refusal::Ragged => 1,
        Refusal::Long => 2,
        Refusal::Kind(_) => 3,
        Refusal::Field(_) => 4,
        Refusal::Nesting(_) => 5,
        Refusal::Skip(_) => 6,
        Refusal::Growth => 7,
        Refusal::Room => 8,
        Refusal::Reply(_) => 9,
        Refusal::State => 10,
        Refusal::Far(_) => 11,
        Refusal::Label(_) => 14,
    }
}

// Its place: of a record, or of a reply byte, from 1; else 0, as the paper's table has it and C is told.
#[tactic(auto, unfolding(rules::specs::Refusals::told))]
pub fn place_of(refusal: Refusal) -> usize
    ensures { result ≡ (told refusal).place }
{
    match refusal {
        Refusal::Kind(place)
        | Refusal::Field(place)
        | Refusal::Nesting(place)
        | Refusal::Skip(place)
        | Refusal::Reply(place)
        | Refusal::Far(place)
        | Refusal::Label(place) => place,
        Refusal::Ragged | Refusal::Long | Refusal::Growth | Refusal::Room | Refusal::State => 0,
    }
}

// The paper's number of a status.
#[tactic(auto, unfolding(rules::specs::Run::status_number))]
pub fn status_number(status: Status) -> u32
    ensures { result ≡ status_number status }
{
    match status {
        Status::Ended => 1,
        Status::NoReply => 2,
        Status::LogFull => 3,
        Status::StackFull => 4,
        Status::Spent => 5,
    }
}
