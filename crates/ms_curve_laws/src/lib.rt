//! What is so of the points of secp256k1 and of its keys. No code.
#![tactic(auto)]

pub mod laws;
