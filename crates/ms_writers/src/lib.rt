//! Which node of a tree writes each instruction of its Script.
#![tactic(auto)]

pub use placing::places;

mod placing;
mod writing;
mod written;
