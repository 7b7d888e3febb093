//! The limits of Scripts and of their runs (Bitcoin Core, `script/script.h`).

/// The most bytes of a Script that runs.
pub const MAX_SCRIPT_SIZE: usize = 10_000;

/// The most opcodes of a run that aren't pushes, with the keys of executed multisignatures.
pub const MAX_OPS_PER_SCRIPT: u32 = 201;

/// The most bytes of an element.
pub const MAX_SCRIPT_ELEMENT_SIZE: usize = 520;

/// The most keys of a multisignature.
pub const MAX_PUBKEYS_PER_MULTISIG: usize = 20;

/// The most elements on both stacks together.
pub const MAX_STACK_SIZE: usize = 1_000;
