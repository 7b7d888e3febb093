//! Definitions of miniscript trees: their fragments, and their size.
#![tactic(auto)]

pub mod laws;

pub use def_hash::HashKind;

/// A wrapper, by its letter (BIP 379).
#[derive(Clone, Copy, Debug, PartialEq, Eq)]
pub enum Wrapper {
    /// `a:X`, which takes its input from one below the top, by the alternative stack.
    A,
    /// `s:X`, the same by SWAP.
    S,
    /// `c:X`, which checks a signature for the key.
    C,
    /// `d:X`, which can be dissatisfied by an empty string.
    D,
    /// `v:X`, which does VERIFY.
    V,
    /// `j:X`, which can be dissatisfied by an empty string in place of its input.
    J,
    /// `n:X`, whose number it makes 0 or 1.
    N,
}

/// A fragment with two children, by its name (BIP 379).
#[derive(Clone, Copy, Debug, PartialEq, Eq)]
pub enum Two {
    /// `and_v(X,Y)`: X, which does VERIFY, then Y.
    AndV,
    /// `and_b(X,Y)`: both.
    AndB,
    /// `or_b(X,Z)`: one of both; each is run.
    OrB,
    /// `or_c(X,Z)`: X, or else Z, which does VERIFY.
    OrC,
    /// `or_d(X,Z)`: X, or else Z.
    OrD,
    /// `or_i(X,Z)`: X or Z, as an item of the satisfaction chooses.
    OrI,
}
