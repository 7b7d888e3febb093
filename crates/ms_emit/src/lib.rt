//! The translation from miniscript trees to Script.
#![tactic(auto)]

pub use ms_extent::{Extent, opcode_count, script_extent, script_len};
pub use translation::{emit, script_bytes};

mod translation;
