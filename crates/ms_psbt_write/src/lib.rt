//! What is written of a PSBT: the maps of inputs that are made final, the PSBT in the form in which it came, and its network
//! transaction.
#![tactic(auto)]

pub use fields::{final_script_sig, final_witness};
pub use form::in_form;
pub use maps::{push_final_map, push_map};
pub use network::network_line;
pub use psbt_text::{begin_psbt, finish_psbt};

mod fields;
mod form;
mod maps;
mod network;
mod pieces;
mod psbt_text;
