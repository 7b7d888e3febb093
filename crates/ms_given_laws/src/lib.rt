//! What a PSBT that was read consists of, proved over the definitions.
#![tactic(auto)]

pub mod laws;
