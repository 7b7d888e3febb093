//! Definitions of ECDSA over secp256k1 (SEC 1, SEC 2), and the judgement of a signature by a key for a hash.
#![tactic(auto)]

pub mod examples;

/// What a signature with its hash type behind is, by a key and for a hash.
#[derive(Clone, Copy, Debug, PartialEq, Eq)]
pub enum Judgement {
    /// It isn't in strict DER, the hash hasn't 32 bytes, the key has no point, or ECDSA refuses it.
    Bad,
    /// ECDSA takes it, and its s is over half of the order (BIP 146: nodes don't relay it).
    High,
    /// ECDSA takes it, and its s is low.
    Good,
}
