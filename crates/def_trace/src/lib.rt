//! Definitions of traces: the run of a script as a line for each instruction, and which node of a tree wrote it.
#![tactic(auto)]

pub mod examples;
pub mod laws;
