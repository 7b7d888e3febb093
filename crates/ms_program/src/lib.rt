//! The program of a P2WSH output, which stands for a Script.
#![tactic(auto)]

pub use program::program_of;

mod program;
