//! Extended public keys and their children (BIP 32), and HMAC-SHA512 (RFC 2104).
#![tactic(auto)]

pub use extended::{Extended, Version, extended_of, read_extended};
pub use hmac::hmac_sha512;
pub use steps::{Node, child, compressed, descendant};

mod extended;
mod hmac;
mod steps;
#[cfg(test)]
mod tests;
