//! The top call of `msat-psbt`: from the words of the command line and the source to a status and a report.
#![tactic(auto)]

pub use def_psbt_answer::Status;
pub use ms_words::Word;
pub use program::msat_psbt;

mod answer;
mod program;
mod words;
