//! That there is an answer, that nothing is lost of what is written, and on what an input depends, proved over the definitions.
#![tactic(auto)]

pub mod examples;
pub mod laws;
