//! An input of a PSBT, read: what its map holds, what it spends, its state and its satisfaction, its final scriptSig and witness,
//! whom to ask, what its signatures sign, and whether its final fields are valid.
#![tactic(auto)]

pub use def_curve::Judgement;
pub use def_spend::{Kind, State, Verification};
pub use def_verify::Flaw;
pub use fields::{Fields, SignedRef, last_byte};
pub use input::{Input, Verifying, fields_of, shared_hashes};
pub use utxo::Amount;
pub use verify::{ConsensusCheck, Verdict};

mod asking;
mod fields;
mod finalize;
mod input;
mod utxo;
mod verify;
