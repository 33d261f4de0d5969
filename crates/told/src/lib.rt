// Answers as the paper's numbers, in structs that C can take: a refusal's number and place, a status, a state.
#![tactic(auto)]

ghost use Rattle.std.specs.Prelude.{◌≡◌};
ghost use Rattle.told.specs.Numbers.{in32, refused_with, verdict_told, text_told, state_told, state_given, ran_told};

use refusals::{number_of, place_of, status_number};
use rules::{Ran, Stack, State, Verdict};
use text::{TextRefusal, TextVerdict};

// C has no Option: 0 says that there is no refusal, no place, and in `QhRan` no status.
#[repr(C)]
#[derive(Clone, Copy)]
pub struct QhVerdict {
    pub refusal: u32,
    pub place: u32,
    pub count: u32,
}

#[repr(C)]
#[derive(Clone, Copy)]
pub struct QhState {
    pub at: u32,
    pub depth: u32,
    pub entries: [u16; 96],
}

#[repr(C)]
#[derive(Clone, Copy)]
pub struct QhRan {
    pub refusal: u32,
    pub place: u32,
    pub status: u32,
    pub state: QhState,
    pub steps: u64,
    pub replies: u64,
    pub actions: u64,
}

// The greatest number of 32 bits stands for every greater one.
#[tactic(auto, unfolding(crate::specs::Numbers::in32))]
fn in_32(n: usize) -> u32
    ensures { result ≡ in32 n }
{
    u32::try_from(n).unwrap_or(u32::MAX)
}

// No count comes with a refusal.
#[tactic(auto, unfolding(crate::specs::Numbers::refused_with))]
fn refused(number: usize, place: usize) -> QhVerdict
    ensures { result ≡ refused_with number place }
{
    QhVerdict {
        refusal: in_32(number),
        place: in_32(place),
        count: 0,
    }
}

#[tactic(auto, unfolding(crate::specs::Numbers::verdict_told))]
impl From<Verdict> for QhVerdict {
    ghost from_gives = { λ verdict told. told ≡ verdict_told verdict };

    fn from(verdict: Verdict) -> QhVerdict {
        match verdict {
            Ok(n) => QhVerdict {
                refusal: 0,
                place: 0,
                count: in_32(n),
            },
            Err(r) => refused(number_of(r), place_of(r)),
        }
    }
}

#[tactic(auto, unfolding(crate::specs::Numbers::text_told, crate::specs::Numbers::text_refusal_told, crate::specs::Numbers::verdict_told, text::specs::Answers::told))]
impl From<TextVerdict> for QhVerdict {
    ghost from_gives = { λ verdict told. told ≡ text_told verdict };

    fn from(verdict: TextVerdict) -> QhVerdict {
        match verdict {
            Ok(n) => QhVerdict::from(Verdict::Ok(n)),
            Err(TextRefusal::Text(p)) => refused(12, p),
            Err(TextRefusal::Name(p)) => refused(13, p),
            Err(TextRefusal::Earlier(r)) => QhVerdict::from(Verdict::Err(r)),
        }
    }
}

#[tactic(auto, unfolding(crate::specs::Numbers::state_told))]
impl From<State> for QhState {
    ghost from_gives = { λ state told. told ≡ state_told state };

    fn from(state: State) -> QhState {
        // By way of a variable: the prover follows no array from field to field.
        let entries = state.stack.entries;
        QhState {
            at: in_32(state.at),
            depth: in_32(state.stack.depth),
            entries,
        }
    }
}

#[tactic(auto, unfolding(crate::specs::Numbers::state_given))]
impl From<QhState> for State {
    ghost from_gives = { λ given state. state ≡ state_given given };

    fn from(given: QhState) -> State {
        // By way of a variable, as above.
        let entries = given.entries;
        State {
            // `usize` has no `From<u32>`, nor `u64` below one of `usize`.
            at: given.at as usize,
            stack: Stack {
                entries,
                depth: given.depth as usize,
            },
        }
    }
}

#[tactic(auto, unfolding(crate::specs::Numbers::ran_told, crate::specs::Numbers::refusal_told, crate::specs::Numbers::place_told, crate::specs::Numbers::status_told))]
impl From<Ran> for QhRan {
    ghost from_gives = { λ ran told. told ≡ ran_told ran };

    fn from(ran: Ran) -> QhRan {
        let (refusal, place, status) = match ran.outcome {
            Ok(w) => (0, 0, status_number(w)),
            Err(r) => (in_32(number_of(r)), in_32(place_of(r)), 0),
        };
        QhRan {
            refusal,
            place,
            status,
            state: QhState::from(ran.state),
            steps: ran.steps,
            replies: ran.replies as u64,
            actions: ran.actions as u64,
        }
    }
}
