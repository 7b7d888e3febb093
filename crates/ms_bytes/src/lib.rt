//! Byte strings and stacks of them, which bytes have the form of a key or the length of a signature, and the limits of Scripts.
#![tactic(auto)]

pub use blob::Blob;
pub use key::is_key;
pub use limits::{
    MAX_OPS_PER_SCRIPT, MAX_PUBKEYS_PER_MULTISIG, MAX_SCRIPT_ELEMENT_SIZE, MAX_SCRIPT_SIZE,
    MAX_STACK_SIZE,
};
pub use signature::{MAX_SIGNATURE_SIZE, is_signature_size};
pub use stack::Stack;

mod blob;
mod key;
mod limits;
mod signature;
mod stack;
