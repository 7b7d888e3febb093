//! Definitions of the height of a miniscript: how many elements both stacks hold at most while one of its canonical
//! satisfactions is run.
#![tactic(auto)]

pub mod examples;
pub mod laws;

/// Of satisfactions or of dissatisfactions: the most items, and the most elements that both stacks hold
/// together at one time, each by itself.
#[derive(Clone, Copy, Debug, PartialEq, Eq)]
pub struct Highest {
    /// The most items.
    pub items: u64,
    /// The most elements that both stacks hold together.
    pub height: u64,
}
