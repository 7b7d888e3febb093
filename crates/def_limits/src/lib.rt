//! Definitions of the formal satisfactions of a miniscript, and of its limits.
#![tactic(auto)]

pub mod examples;
pub mod laws;

/// What a miniscript takes at most: the bytes of its Script, the opcodes that count in a run of it on a canonical
/// satisfaction, and the items and the weight of one.
#[derive(Clone, Copy, Debug, PartialEq, Eq)]
pub struct Limits {
    /// The bytes of its Script.
    pub size: u64,
    /// The opcodes that count in a run of its Script, with the keys of each `multi` that is executed.
    pub ops: u64,
    /// The items of a canonical satisfaction, without the Script.
    pub items: u64,
    /// The weight of a canonical satisfaction, in bytes: the sum over its items, without the Script, of 1 and the item's length.
    pub weight: u64,
}
