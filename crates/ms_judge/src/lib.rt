//! What a signature is by a key and for a hash, and the point of a key, of bytes.
#![tactic(auto)]

pub mod judge;
pub mod numbers;
pub mod point;
#[cfg(test)]
mod tests;
