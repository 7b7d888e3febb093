//! Definitions of the program: its reports, and its answer to each list of words.
#![tactic(auto)]

mod status;

pub use status::Status;
