//! Keys and signatures of secp256k1: the point of a key, the coordinates of a point, and the check of a signature (SEC 1).
#![tactic(auto)]

pub mod affine;
pub mod ecdsa;
mod inverse;
pub mod key;
mod modulus;
mod powers;
mod root;
