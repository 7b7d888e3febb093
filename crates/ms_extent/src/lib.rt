//! What the Script of a tree comes to, without memory: its length, and its opcodes. The arms that the rows of the fragments
//! make are shared with the translation.
#![tactic(auto)]

pub use extent::Extent;
pub use length::{opcode_count, script_extent, script_len};
pub use numbers::number_bytes;

mod arms;
mod extent;
mod length;
mod numbers;
