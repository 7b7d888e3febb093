//! What is promised of PSBTs that were updated, proved over the definitions.
#![tactic(auto)]

pub mod laws;
