//! What `verify` says of what `finalize` writes, proved over the definitions.
#![tactic(auto)]

pub mod laws;
