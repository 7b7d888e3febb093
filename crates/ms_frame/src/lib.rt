//! What a program of words is: its answers, its calls over memory, and above it the word `lines`, whichever program it is.
#![tactic(auto)]

pub use answering::{OfWords, Questions, Replied, answer_in_memory, lines_in_memory};
pub use asking::{asks_lines, words_of};
pub use frame::program;

mod answering;
mod asking;
mod frame;
