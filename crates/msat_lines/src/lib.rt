//! The whole program: `msat`, and above it `lines`, which answers a question on each line of the source.
#![tactic(auto)]

pub use answering::Msat;
pub use frame::{answer_whole, program};

mod answering;
mod frame;
