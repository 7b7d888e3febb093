//! PSBTs as bytes (BIP 174, version 0; BIP 370, version 2): their reading, which copies nothing but the transaction of version 2.
#![tactic(auto)]

pub use def_psbt::{PsbtFault, Refusal};
pub use lists::{skip_inputs, skip_outputs, skip_witnesses};
pub use map::Pairs;
pub use pairs::PairRef;
pub use parts::{first_bytes, first_size, first_string};
pub use psbt::{Psbt, read_psbt};
pub use source::{MAX_SOURCE_SIZE, PsbtBytes, has_magic, psbt_bytes};
pub use stop::ReadStop;

mod forms;
mod inputs;
mod listed;
mod lists;
mod locks;
mod map;
mod maps;
mod outline;
mod pairs;
mod parts;
mod psbt;
mod repeats;
mod signature;
mod source;
mod stop;
mod transaction;
mod values;
mod written;
