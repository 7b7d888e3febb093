//! Definitions of what a PSBT gets by what is known of outputs (BIP 174, "Updater"): the pairs that belong to its maps, which pair
//! bars them, and the PSBT with them.
#![tactic(auto)]

pub mod examples;
