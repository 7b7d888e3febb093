//! Definitions of what a wallet holds: signatures, preimages and lock values.
#![tactic(auto)]

pub mod examples;
pub mod laws;
