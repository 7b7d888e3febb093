//! What the definitions of the program's answers imply, and examples of answers.
#![tactic(auto)]

pub mod examples;
pub mod laws;
