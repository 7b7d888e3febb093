//! The generator: a large sane text with its assets, from a number, and what is answered to it.
#![tactic(auto)]

pub use generator::{answer_gen, generated};

mod generator;
