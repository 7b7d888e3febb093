//! The whole program for PSBTs: `msat_psbt`, and above it `lines`, which answers a question on each line of the source.
#![tactic(auto)]

pub use answering::Psbt;
pub use frame::program;

mod answering;
mod frame;
