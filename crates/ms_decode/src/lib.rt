//! Reading a Script back as a miniscript, from its last instruction to its first.
#![tactic(auto)]

pub use decoding::decode;

mod decoding;
