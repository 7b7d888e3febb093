//! The top call of `msat-descriptor`: from the words of the command line to a status and a report.
#![tactic(auto)]

pub use def_descriptor_answer::Status;
pub use ms_words::Word;
pub use program::msat_descriptor;

mod answer;
mod program;
mod words;
