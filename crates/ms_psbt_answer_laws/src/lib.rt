//! What the definitions of the answers of `msat-psbt` imply, and examples of answers.
#![tactic(auto)]

pub mod examples;
pub mod laws;
