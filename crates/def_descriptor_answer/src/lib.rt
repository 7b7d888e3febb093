//! Definitions of what `msat-descriptor` answers: its words, its statuses, and each line of its reports.
#![tactic(auto)]

pub use status::Status;

pub mod examples;
pub mod laws;
mod status;
