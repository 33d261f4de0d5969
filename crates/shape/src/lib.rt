// Shape: well-built routines, and the checks of a routine.
#![tactic(auto)]

mod check;
mod nesting;

pub use check::check_routine;
