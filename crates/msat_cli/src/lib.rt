//! The program's top call: from the words of the command line and the source to a status and a report.
#![tactic(auto)]

pub use def_answer::Status;
pub use laws::{msat_without_faults, policy_tells_satisfied};
pub use ms_generator::generated;
pub use ms_words::Word;
pub use program::msat;
pub use source::MOST_FILE;

mod answer;
mod laws;
mod program;
mod source;
mod texts;
