// A run: as many steps as the budget has, from a given state, with the state in locals. A single step is the same with budget 1.
ghost use Rattle.std.specs.Prelude.{◌≡◌, true, ℕ, ◌≤◌};
ghost use Rattle.rules.specs.Record.{count};
ghost use Rattle.rules.specs.Numbers.{names, move_to};
ghost use Rattle.rules.specs.Instruction.{ops};
ghost use Rattle.rules.specs.Run.{run};
ghost use Rattle.rules.specs.Answers.{Called, ran, mem_at};
ghost use Rattle.machine.specs.Running.{stops, Right};

use deeds::deed_at;
use rules::{Ran, Stack, State, Status};
use stack::names;
use steps::turn;

// What a run that stops here answers.
fn stop(status: Status, at: usize, stack: Stack, steps: u64, asked: usize) -> Ran
    ensures { result ≡ stops status at stack steps asked }
{
    Ran {
        outcome: Ok(status),
        state: State { at, stack },
        steps,
        replies: asked,
        actions: asked,
    }
}

// Statuses are tried in the order 1, 5, 2, 3, 4. A move to any number outside 1..n sets position 0, which means ended. The table has the
// places of the records that are looked at: of all, or with budget 1 of the one where the state stands.
pub(crate) fn drive(
    s: &[u8],
    places: &[u16],
    replies: &[u8],
    log: &mut [u8],
    budget: u64,
    state: State,
) -> Ran
    requires s_bound { count s.now ≤ 4096 }
    requires by_index { (j : ℕ) → names (count s.now) j ≡ true → (budget ≤ 1 → j ≡ state.at) → Right s.now places.now j }
    ensures { Called (ran (run (ops s.now) budget (move_to (count s.now) state.at) (mem_at state replies.now log.old))) result log.new }
{
    let n = s.len() / 8;
    let State { mut at, mut stack } = state;
    let mut asked: usize = 0;
    let mut steps: u64 = 0;
    // No `for` over the budget: whether the run has ended is asked before whether the budget is spent, also at its end.
    loop {
        if !names(n, at) {
            return stop(Status::Ended, 0, stack, steps, asked);
        }
        if steps == budget {
            return stop(Status::Spent, at, stack, steps, asked);
        }
        // At most 4,097, which is proved.
        let deed = deed_at(s, places, at, (at + 1) as u16);
        match turn(n, deed, &mut stack, replies, log, &mut asked) {
            Ok(k) => {
                at = k;
                steps += 1;
            }
            Err(status) => return stop(status, at, stack, steps, asked),
        }
    }
}
