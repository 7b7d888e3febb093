//! `update`: a PSBT with what a descriptor says of its inputs and outputs.
#![tactic(auto)]

pub use book::DescriptorBook;
pub use opening::{Opened, open_book};
pub use updating::update_reply;

mod book;
mod knowing;
mod opening;
mod origins;
mod placing;
mod updating;
