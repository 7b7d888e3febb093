//! Witnesses of P2WSH outputs: a witness as bytes, its reading and its replay.
#![tactic(auto)]

pub use fault::WitnessFault;
pub use ms_program::program_of;
pub use reading::read_witness;
pub use replaying::{ReplayStop, replay};
pub use witness::{stack_bytes, witness_bytes};

mod examples;
mod fault;
mod laws;
mod reading;
mod replaying;
mod witness;
