//! What the reports of `msat` have for characters, and so what the answers of `msat lines` are, proved over the definitions.
#![tactic(auto)]

pub mod laws;
