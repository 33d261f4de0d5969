// What C and Rust call: byte slices and numbers in, a struct of the paper's numbers out. Each call answers what the crate below answers.
#![tactic(auto)]

ghost use Rattle.std.specs.Prelude.{◌≡◌};
ghost use Rattle.rules.specs.Record.{records};
ghost use Rattle.rules.specs.Relative.{to_relative, to_absolute};
ghost use Rattle.rules.specs.Answers.{check_records, check_routine, relating, absoluting, run_routine, run_base, step_routine, step_base};
ghost use Rattle.text.specs.Answers.{reading, writing, bytes_read, text_written};
ghost use Rattle.told.specs.Numbers.{verdict_told, state_given};
ghost use Rattle.abi.specs.Exported.{Converts, Translates, Calls, Lists, Types};

use rules::Notation;
use told::{QhRan, QhState, QhVerdict};

// The checks of a routine, 1 to 5, 14, 6 and 7.
#[unsafe(no_mangle)]
pub extern "C" fn qh_check_routine(bytes: &[u8]) -> QhVerdict
    ensures { result ≡ verdict_told (check_routine bytes.now) }
{
    shape::check_routine(bytes).into()
}

// The checks of a base.
#[unsafe(no_mangle)]
pub extern "C" fn qh_check_base(bytes: &[u8]) -> QhVerdict
    ensures { result ≡ verdict_told (check_records Notation.Base bytes.now) }
{
    checks::check_base(bytes).into()
}

// The checks of a relative base.
#[unsafe(no_mangle)]
pub extern "C" fn qh_check_relative(bytes: &[u8]) -> QhVerdict
    ensures { result ≡ verdict_told (check_records Notation.Relative bytes.now) }
{
    checks::check_relative(bytes).into()
}

// The base of a routine.
#[unsafe(no_mangle)]
pub extern "C" fn qh_convert(routine: &[u8], out: &mut [u8], work: &mut [u8]) -> QhVerdict
    ensures { Converts routine.now out.old work.old result out.new work.new }
{
    lower::convert(routine, out, work).into()
}

// Absolute to relative jumps.
#[unsafe(no_mangle)]
pub extern "C" fn qh_to_relative(base: &[u8], out: &mut [u8]) -> QhVerdict
    ensures { Translates (relating base.now out.old) (to_relative (records base.now)) out.old result out.new }
{
    relative::to_relative(base, out).into()
}

// Relative to absolute jumps.
#[unsafe(no_mangle)]
pub extern "C" fn qh_to_absolute(relative: &[u8], out: &mut [u8]) -> QhVerdict
    ensures { Translates (absoluting relative.now out.old) (to_absolute (records relative.now)) out.old result out.new }
{
    relative::to_absolute(relative, out).into()
}

// Runs a routine from its start.
#[unsafe(no_mangle)]
pub extern "C" fn qh_run_routine(
    routine: &[u8],
    replies: &[u8],
    log: &mut [u8],
    budget: u64,
) -> QhRan
    ensures { Calls (run_routine routine.now replies.now log.old budget) result log.new }
{
    machine::run_routine(routine, replies, log, budget).into()
}

// Runs a base from its start.
#[unsafe(no_mangle)]
pub extern "C" fn qh_run_base(base: &[u8], replies: &[u8], log: &mut [u8], budget: u64) -> QhRan
    ensures { Calls (run_base base.now replies.now log.old budget) result log.new }
{
    machine::run_base(base, replies, log, budget).into()
}

// One step of a routine from a given state.
#[unsafe(no_mangle)]
pub extern "C" fn qh_step_routine(
    routine: &[u8],
    replies: &[u8],
    log: &mut [u8],
    state: QhState,
) -> QhRan
    ensures { Calls (step_routine routine.now replies.now log.old (state_given state)) result log.new }
{
    machine::step_routine(routine, replies, log, state.into()).into()
}

// One step of a base from a given state.
#[unsafe(no_mangle)]
pub extern "C" fn qh_step_base(base: &[u8], replies: &[u8], log: &mut [u8], state: QhState) -> QhRan
    ensures { Calls (step_base base.now replies.now log.old (state_given state)) result log.new }
{
    machine::step_base(base, replies, log, state.into()).into()
}

// The listing of a routine: its text, and how many bytes that has.
#[unsafe(no_mangle)]
pub extern "C" fn qh_list(routine: &[u8], text: &mut [u8]) -> QhVerdict
    ensures { Lists routine.now text.old result text.new }
{
    listing::list(routine, text).into()
}

// A typed routine read to its records.
#[unsafe(no_mangle)]
pub extern "C" fn qh_read_text(text: &[u8], names: &[u8], out: &mut [u8]) -> QhVerdict
    ensures { Types (reading text.now names.now out.old) (bytes_read text.now names.now) out.old result out.new }
{
    reader::read_text(text, names, out).into()
}

// A routine written as text.
#[unsafe(no_mangle)]
pub extern "C" fn qh_write_text(routine: &[u8], names: &[u8], text: &mut [u8]) -> QhVerdict
    ensures { Types (writing routine.now names.now text.old) (text_written routine.now names.now) text.old result text.new }
{
    writer::write_text(routine, names, text).into()
}
