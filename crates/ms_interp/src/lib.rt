//! The Script interpreter: a run of a Script on a stack, with the fault and the place where it is
//! refused; whole, or instruction by instruction.
#![tactic(auto)]

pub use def_machine::ScriptFault;
pub use report::{RunReport, RunStop};
pub use runs::{run, unread};
pub use stepped::SteppedRun;

mod branches;
mod effects;
mod machine;
mod multi_sig;
mod operands;
mod pile;
mod report;
mod runs;
mod stepped;
mod stop;
mod timelocks;
