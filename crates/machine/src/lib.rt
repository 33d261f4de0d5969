// The machine: runs and single steps, of routines and bases.
#![tactic(auto)]

mod run;

ghost use Rattle.std.specs.Prelude.{◌≡◌};
ghost use Rattle.rules.specs.Answers.{Called, run_routine, run_base, step_routine, step_base};
ghost use Rattle.machine.specs.Running.{fresh_at};

use checks::check_records;
use rules::{Notation, Ran, Stack, State};
use run::drive;
use shape::check_routine;
use stack::Counters;
use states::{turned_away, with_replies, with_state};
use ways::fill_ways;

// A fresh stack at a position: 1 where a run starts, 0 in what a refused run hands back.
fn fresh_at(at: usize) -> State
    ensures { result ≡ fresh_at at }
{
    State {
        at,
        stack: Stack::fresh(),
    }
}

// The four calls are written out: what they share is `drive`, and a trait of routine and base would be longer than the arms it joins.

// Runs a routine from its start: the checks of a routine, then 9.
pub fn run_routine(routine: &[u8], replies: &[u8], log: &mut [u8], budget: u64) -> Ran
    ensures { Called (run_routine routine.now replies.now log.old budget) result log.new }
{
    match with_replies(check_routine(routine), replies) {
        Err(refusal) => turned_away(refusal, fresh_at(0)),
        Ok(n) => {
            let mut places = [0; 512];
            fill_ways(routine, 0, n, &mut places);
            drive(routine, &places, replies, log, budget, fresh_at(1))
        }
    }
}

// Runs a base from its start: checks 1 to 4, then 9. A base has no table of places.
pub fn run_base(base: &[u8], replies: &[u8], log: &mut [u8], budget: u64) -> Ran
    ensures { Called (run_base base.now replies.now log.old budget) result log.new }
{
    match with_replies(check_records(Notation::Base, base), replies) {
        Err(why) => turned_away(why, fresh_at(0)),
        Ok(_) => drive(base, &[], replies, log, budget, fresh_at(1)),
    }
}

// One step of a routine from a given state: the same with budget 1, and check 10. A refused step hands back the state it was given. Only
// the record where the state stands is looked at, so the table has its place alone.
pub fn step_routine(routine: &[u8], replies: &[u8], log: &mut [u8], state: State) -> Ran
    ensures { Called (step_routine routine.now replies.now log.old state) result log.new }
{
    match with_state(with_replies(check_routine(routine), replies), state) {
        Err(refusal) => turned_away(refusal, state),
        Ok(_) => {
            let mut places = [0; 512];
            fill_ways(routine, state.at.saturating_sub(1), state.at, &mut places);
            drive(routine, &places, replies, log, 1, state)
        }
    }
}

// One step of a base from a given state.
pub fn step_base(base: &[u8], replies: &[u8], log: &mut [u8], state: State) -> Ran
    ensures { Called (step_base base.now replies.now log.old state) result log.new }
{
    match with_state(
        with_replies(check_records(Notation::Base, base), replies),
        state,
    ) {
        Err(refusal) => turned_away(refusal, state),
        Ok(_) => drive(base, &[], replies, log, 1, state),
    }
}
