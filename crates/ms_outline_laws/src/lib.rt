//! What is so of all outlines and of the letter that fits, proved over the definitions.
#![tactic(auto)]

pub mod laws;
