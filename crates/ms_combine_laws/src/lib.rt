//! What is promised of PSBTs that were combined, proved over the definitions.
#![tactic(auto)]

pub mod laws;
