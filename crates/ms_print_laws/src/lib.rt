//! What the printed form of a policy says of it, proved over the definitions.
#![tactic(auto)]

pub mod laws;
