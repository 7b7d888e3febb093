//! Which satisfaction is chosen.

/// Which satisfaction is chosen of a miniscript.
#[derive(Clone, Copy, Debug, PartialEq, Eq)]
pub enum Choice {
    /// Of a sane one, one that nobody can change without a signature that it doesn't show, another preimage or another key
    /// with the same hash: what needs no signature is taken first.
    Strict,
    /// Of a valid one, so that no canonical one weighs less.
    Cheapest,
}
