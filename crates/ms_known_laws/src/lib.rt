//! What is so of all that a descriptor says of its outputs, proved over the definitions.
#![tactic(auto)]

pub mod laws;
