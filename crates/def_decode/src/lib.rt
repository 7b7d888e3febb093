//! Definitions of reading a Script back: miniscripts that are nested to the right, and which of them a Script has.
#![tactic(auto)]

pub mod examples;
