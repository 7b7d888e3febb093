//! What is promised of satisfactions and of choices, as statements.
#![tactic(auto)]

pub mod examples;
pub mod laws;
