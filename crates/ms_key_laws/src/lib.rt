//! What is so of miniscripts that differ in their keys alone, and of the texts that a descriptor gives, proved over the definitions.
#![tactic(auto)]

pub mod laws;
