//! What the signatures of a transaction sign (BIP 143), over the bytes of the transaction as they lie in a PSBT.
#![tactic(auto)]

pub use def_spend::{HashType, SignedOutputs};
pub use shared::{SharedHashes, hash_of_output};

mod pieces;
mod shared;
