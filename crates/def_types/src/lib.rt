//! Definitions of miniscript's two type systems: correctness and malleability (BIP 379).
#![tactic(auto)]

pub mod examples;
pub mod laws;
mod rule;

pub use rule::{Rule, RuleAt};

/// What a fragment does with the stack (BIP 379).
#[derive(Clone, Copy, Debug, PartialEq, Eq)]
pub enum Base {
    /// Pushes a nonzero value of at most four bytes when satisfied, and the empty string when dissatisfied.
    B,
    /// Pushes nothing when satisfied, and aborts else.
    V,
    /// Pushes a key, whose signature is still to be checked.
    K,
    /// Takes its input from one below the top, and else does as `B`.
    W,
}

/// A correctness type (BIP 379): a base type, and five properties.
#[derive(Clone, Copy, Debug, PartialEq, Eq)]
pub struct CorrectnessType {
    /// The base type.
    pub base: Base,
    /// Zero-arg: it takes no items.
    pub z: bool,
    /// One-arg: it takes exactly one item.
    pub o: bool,
    /// Nonzero: it takes an item at least, and no satisfaction has the empty string on top.
    pub n: bool,
    /// Dissatisfiable: there is a dissatisfaction that can always be given.
    pub d: bool,
    /// Unit: when satisfied it pushes exactly the number 1.
    pub u: bool,
}

/// The malleability properties (BIP 379).
#[derive(Clone, Copy, Debug, PartialEq, Eq)]
pub struct MalleabilityProperties {
    /// Signed: every satisfaction needs a signature.
    pub s: bool,
    /// Forced: every dissatisfaction needs a signature.
    pub f: bool,
    /// Expressive: there is one dissatisfaction without a signature, which can always be given.
    pub e: bool,
}
