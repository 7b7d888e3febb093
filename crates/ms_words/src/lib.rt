//! The words of the command line, and the forms that they have.
#![tactic(auto)]

mod call;
mod word;
mod words;

pub use call::command_line;
pub use word::Word;
pub use words::{Command, TextCommand, read_words};
