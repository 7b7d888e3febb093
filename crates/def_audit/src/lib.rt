//! Definitions of the audit of a witness: by which rows of the satisfaction table a stack satisfies a miniscript.
#![tactic(auto)]

pub mod examples;
pub mod laws;

/// How a node takes part in a satisfaction: whether it is satisfied or dissatisfied, and by which row.
#[derive(Clone, Copy, Debug, PartialEq, Eq)]
pub struct Step {
    /// The node's number: children before parents, left to right, from 0.
    pub node: u32,
    /// Whether the node is satisfied.
    pub sat: bool,
    /// Whether the row isn't canonical.
    pub extra: bool,
}
