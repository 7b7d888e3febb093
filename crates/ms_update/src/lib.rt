//! A PSBT with what is known of outputs (BIP 174, "Updater"): the pairs that belong to its maps, put behind those that stand there.
#![tactic(auto)]

pub use known::{Book, KnownKey, KnownOutput};
pub use updating::{UpdateStop, Updated, update};

mod inputs;
mod known;
mod maps;
mod pairs;
mod updating;
