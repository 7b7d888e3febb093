//! Signatures in strict DER (BIP 66): the numbers r and s of one with the byte of its hash type behind.
#![tactic(auto)]

pub mod numbers;

pub use numbers::numbers_of;
