//! Points of secp256k1: doubling, addition and multiples without division, and powers and inverses of numbers.
#![tactic(auto)]

pub mod multiples;
pub mod point;
pub mod sums;

pub use point::{Affine, Jacobian};
