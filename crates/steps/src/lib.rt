// One step: what a deed does to the counter stack, the replies and the log.
#![tactic(auto)]

ghost use Rattle.std.specs.Prelude.{◌≡◌, List, ℕ, Ok};
ghost use Rattle.rules.specs.declared.Stack.{Stack};
ghost use Rattle.deeds.specs.declared.Deed.TheVariants.{Ask, Change, Compare, Return};
ghost use Rattle.steps.specs.Steps.{mem, leads, Steps};

use deeds::{Deed, Own};
use rules::{Stack, Status};
use stack::{Counters, StackReply, names};

// Does the outside action x, or says why not and writes nothing. It uses one reply, also when its reply doesn't matter, and logs its
// number in two bytes, low first; a log with under two bytes left is full.
fn outside(
    replies: &[u8],
    log: &mut [u8],
    asked: &mut usize,
    x: u16,
    yes: usize,
    no: usize,
) -> Result<usize, Status>
    ensures { (n : ℕ) (s : Stack) → Steps n (Ask x «yes» «no») (mem s replies.now asked.old log.old) result (mem s replies.now asked.new log.new) }
{
    let k = *asked;
    if replies.len() <= k {
        return Err(Status::NoReply);
    }
    if log.len() / 2 <= k {
        return Err(Status::LogFull);
    }
    let [low, high] = x.to_le_bytes();
    log[2 * k] = low;
    log[2 * k + 1] = high;
    *asked = k + 1;
    Ok(if replies[k] == 1 { yes } else { no })
}

// What the stack replied says where to go; if it is full the step is not taken.
#[tactic(auto, unfolding(crate::specs::Steps::leads))]
fn led(reply: StackReply, yes: usize, no: usize) -> Result<usize, Status>
    ensures { result ≡ leads reply «yes» «no» }
{
    match reply {
        StackReply::Yes => Ok(yes),
        StackReply::No => Ok(no),
        StackReply::Full => Err(Status::StackFull),
    }
}

// Here and below the stack goes in and comes back by its parts, for speed: copied as one value, its depth waits for the entries that
// were just written, and a run of pushes, compares and pops took half as long again.

// Push or pop, and where that leads.
fn change(own: Own, stack: &mut Stack, yes: usize, no: usize) -> Result<usize, Status>
    ensures { (n : ℕ) (replies : List ℕ) (asked : ℕ) (log : List ℕ) → Steps n (Change own «yes» «no») (mem stack.old replies asked log) result (mem stack.new replies asked log) }
{
    let entries = stack.entries;
    let before = Stack {
        entries,
        depth: stack.depth,
    };
    let handed = match own {
        Own::Push(y) => before.push(y),
        Own::Pop => before.pop(),
    };
    let after = handed.stack;
    let all = after.entries;
    stack.entries = all;
    stack.depth = after.depth;
    led(handed.reply, yes, no)
}

// Comparing keeps the stack.
fn compare(stack: &Stack, y: u16, yes: usize, no: usize) -> Result<usize, Status>
    ensures { (n : ℕ) (replies : List ℕ) (asked : ℕ) (log : List ℕ) → Steps n (Compare y «yes» «no») (mem stack.now replies asked log) result (mem stack.now replies asked log) }
{
    let entries = stack.entries;
    let before = Stack {
        entries,
        depth: stack.depth,
    };
    led(before.top_is(y).reply, yes, no)
}

// ##R: if the stack is not empty and its top t is in 1..n, pop and go to t; otherwise end, stack kept.
#[tactic(auto, using(crate::proofs::Steps::stays_empty))]
fn go_back(n: usize, stack: &mut Stack) -> usize
    ensures { (replies : List ℕ) (asked : ℕ) (log : List ℕ) → Steps n Return (mem stack.old replies asked log) (Ok result) (mem stack.new replies asked log) }
{
    match stack.top() {
        Some(t) if names(n, usize::from(t)) => {
            let entries = stack.entries;
            let before = Stack {
                entries,
                depth: stack.depth,
            };
            let after = before.pop().stack;
            let all = after.entries;
            stack.entries = all;
            stack.depth = after.depth;
            usize::from(t)
        }
        _ => 0,
    }
}

// Does the deed in a file of n records, after so many outside actions. Replies, log and their count come singly: only an outside action
// has them.
pub fn turn(
    n: usize,
    deed: Deed,
    stack: &mut Stack,
    replies: &[u8],
    log: &mut [u8],
    asked: &mut usize,
) -> Result<usize, Status>
    ensures { Steps n deed (mem stack.old replies.now asked.old log.old) result (mem stack.new replies.now asked.new log.new) }
{
    match deed {
        Deed::Leap(k) => Ok(k),
        Deed::Ask(x, yes, no) => outside(replies, log, asked, x, yes, no),
        Deed::Change(own, yes, no) => change(own, stack, yes, no),
        Deed::Compare(y, yes, no) => compare(stack, y, yes, no),
        Deed::Return => Ok(go_back(n, stack)),
    }
}
