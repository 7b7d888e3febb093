//! Whether the final fields of an input are valid, by consensus' own check of its signatures.

pub use check::ConsensusCheck;
pub use spend::{final_verdict, input_check};
pub use verdict::Verdict;

mod check;
mod execution;
mod items;
mod spend;
mod verdict;
