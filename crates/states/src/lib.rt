// Which machine states and replies are right: refusals 9 and 10, after those of the file, and what a refused call answers.
#![tactic(auto)]

ghost use Rattle.std.specs.Prelude.{◌≡◌, true, ◌≤◌, eqb, leb, ltb, position};
ghost use Rattle.std.specs.List.{list_all};
ghost use Rattle.rules.specs.Answers.{entries_sound, sound};
ghost use Rattle.states.specs.States.{with_replies, with_state, away_with};

use rules::{Ran, Refusal, State, Verdict};

// Entries in use are 0..9,999 ..
fn used_sound(entries: &[u16]) -> bool
    ensures { result ≡ list_all (λ v. leb v 9999) entries.now }
{
    entries.iter().all(|v| *v <= 9999)
}

// .. and unused ones zero.
fn unused_sound(entries: &[u16]) -> bool
    ensures { result ≡ list_all (λ v. eqb v 0) entries.now }
{
    entries.iter().all(|v| *v == 0)
}

#[tactic(auto, using(crate::proofs::States::entries_split))]
fn entries_sound(entries: &[u16; 96], depth: usize) -> bool
    requires { depth ≤ 96 }
    ensures { result ≡ entries_sound depth entries.now }
{
    used_sound(&entries[..depth]) && unused_sound(&entries[depth..])
}

// A position 0..n, a depth 0..96, and sound entries.
#[tactic(auto, unfolding(rules::specs::Answers::sound))]
fn sound(n: usize, state: State) -> bool
    ensures { result ≡ sound n state }
{
    let stack = state.stack;
    state.at <= n && stack.depth <= 96 && entries_sound(&stack.entries, stack.depth)
}

// Whether all reply bytes are 0 or 1. It never leaves early, so that many bytes are looked at together.
fn all_fine(replies: &[u8]) -> bool
    ensures { result ≡ true → position (λ r. ltb 1 r) replies.now ≡ None }
{
    replies.iter().fold(0, |most: u8, r| most.max(*r)) <= 1
}

// Where the first reply byte stands that is not 0 or 1, from 0.
fn bad_reply(replies: &[u8]) -> Option<usize>
    ensures { result ≡ position (λ r. ltb 1 r) replies.now }
{
    if all_fine(replies) {
        return None;
    }
    replies.iter().position(|r| *r > 1)
}

// 9 reply: a reply byte not 0 or 1. All are looked at, used or not.
#[tactic(auto, unfolding(crate::specs::States::with_replies, rules::specs::Refusals::verdict_of, rules::specs::Refusals::when_at))]
pub fn with_replies(verdict: Verdict, replies: &[u8]) -> Verdict
    ensures { result ≡ with_replies verdict replies.now }
{
    let n = verdict?;
    match bad_reply(replies) {
        Some(i) => Err(Refusal::Reply(i + 1)),
        None => Ok(n),
    }
}

// 10 state: a machine state that is not sound.
#[tactic(auto, unfolding(crate::specs::States::with_state, rules::specs::Refusals::verdict_of, rules::specs::Refusals::when))]
pub fn with_state(verdict: Verdict, state: State) -> Verdict
    ensures { result ≡ with_state verdict state }
{
    let n = verdict?;
    if sound(n, state) {
        Ok(n)
    } else {
        Err(Refusal::State)
    }
}

// A refused call has taken no step, and used and logged nothing.
pub fn turned_away(refusal: Refusal, state: State) -> Ran
    ensures { result ≡ away_with refusal state }
{
    Ran {
        outcome: Err(refusal),
        state,
        steps: 0,
        replies: 0,
        actions: 0,
    }
}
