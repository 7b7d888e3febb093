//! What the reports of `msat-psbt` to texts have for characters, and so what the answers of `msat-psbt lines` are, proved over the
//! definitions.
#![tactic(auto)]

pub mod laws;
