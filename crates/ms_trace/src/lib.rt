//! The trace of a run: the run of a Script on a stack, with a line for each instruction that it reaches; and the instructions
//! of a Script, listed.
#![tactic(auto)]

pub use listing::list_instructions;
pub use tracing::trace;

mod changes;
mod listing;
mod names;
mod pieces;
mod step_line;
mod tracing;
