//! Definitions of the ways to spend: the least sets of keys, preimages and locks with which a miniscript can be satisfied.
#![tactic(auto)]

pub mod examples;

/// A relative lock (BIP 68).
#[derive(Clone, Copy, Debug, PartialEq, Eq)]
pub enum Delay {
    /// So many blocks.
    Blocks(u16),
    /// So many units of 512 seconds.
    Units(u16),
}

/// An absolute lock (BIP 65).
#[derive(Clone, Copy, Debug, PartialEq, Eq)]
pub enum Moment {
    /// The height of a block.
    Height(u32),
    /// A time in seconds.
    Time(u32),
}
