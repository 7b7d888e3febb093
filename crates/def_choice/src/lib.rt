//! Definitions of which satisfaction is chosen, and of which satisfactions nobody can change.
#![tactic(auto)]

mod choice;
pub mod examples;
pub mod laws;

pub use choice::Choice;
