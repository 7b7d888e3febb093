//! The state of an input of a PSBT whose Script is known, its satisfaction, and its final witness.

pub use judging::Judging;
pub use settled::{Settled, settle};
pub use witness::{final_witness, key_witness};

mod judging;
mod settled;
mod witness;
