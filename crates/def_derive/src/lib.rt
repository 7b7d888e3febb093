//! Definitions of what BIP 32 derives from an extended public key: HMAC-SHA512, CKDpub, and the key's bytes.
#![tactic(auto)]

pub mod examples;
