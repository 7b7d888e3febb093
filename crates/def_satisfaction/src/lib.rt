//! Definitions of satisfactions: which stacks satisfy a miniscript, and what a stack weighs.
#![tactic(auto)]

pub mod examples;
pub mod laws;
