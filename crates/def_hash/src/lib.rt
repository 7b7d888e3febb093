//! Definitions of the hash functions that Script knows: RIPEMD-160, SHA-256, and their compositions.
#![tactic(auto)]

pub mod examples;
pub mod laws;

/// A hash function that a hash lock names, by the name of its fragment (BIP 379).
#[derive(Clone, Copy, Debug, PartialEq, Eq)]
pub enum HashKind {
    /// SHA-256 (FIPS 180-4), whose digest has 32 bytes.
    Sha256,
    /// SHA-256 twice, whose digest has 32 bytes.
    Hash256,
    /// RIPEMD-160, whose digest has 20 bytes.
    Ripemd160,
    /// RIPEMD-160 of SHA-256, whose digest has 20 bytes.
    Hash160,
}
