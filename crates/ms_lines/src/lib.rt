//! Many questions to one process: a line of JSON is a question, and a line of JSON is its answer.
#![tactic(auto)]

pub use answering::{Outcome, Program};
pub use memory::ByteSink;
pub use stream::{Ending, answer_lines};
pub use turns::{Start, finish, turn};

mod answer;
mod answering;
mod feeds;
mod memory;
mod plain;
mod question;
mod stream;
mod through;
mod turns;
