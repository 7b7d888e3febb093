//! Answers: each has a status and a report, which is made whole before anything is written.
use def_answer::Status;

/// A status, and the whole report that goes with it.
#[derive(Drop)]
pub struct Answer {
    /// The status that the program ends with.
    pub status: Status,
    /// All that it writes.
    pub report: String,
}
