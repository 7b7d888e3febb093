//! Script: its instructions, and their shortest spelling as bytes.
#![tactic(auto)]

pub use def_script::{InstrFault, NumFault, Op, SizeFault};
pub use encoding::{encode, opcode_byte};
pub use ms_bytes::{
    Blob, MAX_OPS_PER_SCRIPT, MAX_PUBKEYS_PER_MULTISIG, MAX_SCRIPT_ELEMENT_SIZE, MAX_SCRIPT_SIZE,
    MAX_SIGNATURE_SIZE, MAX_STACK_SIZE, Stack, is_key, is_signature_size,
};
pub use numbers::{NumBytes, num_decode, num_encode, truth};
pub use pushes::{PushForm, push_byte, push_form, push_length};
pub use reading::{InstrRef, next_instr};
pub use script::{Instr, Script, verify_form_of};
pub use sizes::{SizeBytes, compact_size, read_size};

mod encoding;
mod numbers;
mod opcodes;
mod pushes;
mod reading;
mod script;
mod sizes;
