// The four stages, by their names. Stage 1, labels, is here.
#![tactic(auto)]

mod unlabel;

pub use calls::expand_calls;
pub use conditionals::expand_conditionals;
pub use loops::expand_loops;
pub use unlabel::expand_labels;
