//! Definitions of what `msat-psbt` answers: its words, its statuses, and each line of its reports.
#![tactic(auto)]

pub use status::Status;
pub use words::{Command, Form, Request};

mod status;
mod words;
