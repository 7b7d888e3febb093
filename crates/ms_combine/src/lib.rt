//! PSBTs of one transaction, combined (BIP 174, "Combiner").
#![tactic(auto)]

pub use def_combine::{CombineRefusal, LineFault};
pub use stop::CombineStop;
pub use whole::combine;

mod joined;
mod keys;
mod lines;
mod pairs;
mod parts;
mod stop;
mod transactions;
mod versions;
mod walks;
mod whole;
