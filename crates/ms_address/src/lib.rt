//! The addresses of outputs (BIP 173, BIP 13), Base58Check, and the checksum of a descriptor's text (BIP 380).
#![tactic(auto)]

pub use address::{address_of, hash_address};
pub use base58::{base58_check, read_base58_check};
pub use bech32::program_address;
pub use checksum::descriptor_sum;

mod address;
mod base58;
mod bech32;
mod checksum;
mod letters;
mod remainder;
#[cfg(test)]
mod tests;
