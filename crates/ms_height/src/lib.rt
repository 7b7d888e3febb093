//! The height of a miniscript: how many elements both stacks hold at most while a canonical satisfaction is run.
#![tactic(auto)]

mod choice;
mod heights;
mod highest;
mod kept;
mod row;
mod stacks;
mod sums;
mod tally;
mod threshold;

pub use stacks::height;
