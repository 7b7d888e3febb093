//! The reader of miniscript text, which tells the first wrong place exactly.
#![tactic(auto)]

pub use def_text::TextFault;
pub use text::{TextTree, read_text};
pub use words::{decoded, key_spelled, number_spelled};

mod arguments;
mod build;
mod expressions;
mod forms;
mod letters;
mod names;
mod reader;
mod text;
mod tokens;
mod words;
