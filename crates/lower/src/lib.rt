// A routine lowered to its base: the four stages in their order, and the call that converts.
#![tactic(auto)]

ghost use Rattle.std.specs.Prelude.{◌≡◌, ◌*◌, ◌≤◌, length};
ghost use Rattle.rules.specs.Record.{count};
ghost use Rattle.rules.specs.Answers.{check_routine, base_records, base_count, Converted};
ghost use Rattle.records.specs.Writing.{Wrote};

use growth::base_count;
use records::clear;
use rules::{Refusal, Verdict};
use shape::check_routine;
use stages::{expand_calls, expand_conditionals, expand_labels, expand_loops};

// Every stage, in order: from the routine to the working buffer, to the output, back to the working buffer, and to the output. Out of
// line, so that the stages' tables are not on the machine stack while the checks, which call each other as deep as items nest, run.
#[inline(never)]
fn write_base(routine: &[u8], out: &mut [u8], work: &mut [u8]) -> usize
    requires routine_value { check_routine routine.now ≡ Ok (count routine.now) }
    requires routine_in_bounds { (8 * base_count routine.now ≤ length out.old) × (8 * base_count routine.now ≤ length work.old) }
    ensures { Wrote (base_records routine.now) out.old out.new result }
{
    let first = expand_labels(routine, work);
    let second = expand_calls(&work[..first], out);
    let third = expand_loops(&out[..second], work);
    expand_conditionals(&work[..third], out)
}

// The base of a routine, in the first 8 bytes a record of the output; the working buffer is then all zero. A refusal, the
// routine's own or 8, leaves both as they were.
pub fn convert(routine: &[u8], out: &mut [u8], work: &mut [u8]) -> Verdict
    ensures { Converted routine.now out.old work.old result out.new work.new }
{
    check_routine(routine)?;
    let n = base_count(routine);
    if out.len() < 8 * n || work.len() < 8 * n {
        return Err(Refusal::Room);
    }
    let bytes = write_base(routine, out, work);
    clear(work);
    Ok(bytes / 8)
}
