//! The hash types of signatures.

ghost use Rattle.std.specs.Prelude.{◌≡◌};
ghost use Rattle.def_spend.specs.Fields.{last_byte as the_last_byte};
ghost use Rattle.def_spend.specs.HashTypes.{hash_type_of as the_hash_type_of};

use def_spend::{HashType, SignedOutputs};

/// The hash type of a number, or `None` exactly where it is none. Takes no memory.
pub fn hash_type_of(number: u32) -> Option<HashType>
    ensures { result ≡ the_hash_type_of number }
{
    let (outputs, anyone_can_pay) = match number {
        0x01 => (SignedOutputs::All, false),
        0x02 => (SignedOutputs::None, false),
        0x03 => (SignedOutputs::Single, false),
        0x81 => (SignedOutputs::All, true),
        0x82 => (SignedOutputs::None, true),
        0x83 => (SignedOutputs::Single, true),
        _ => return None,
    };
    Some(HashType {
        outputs,
        anyone_can_pay,
    })
}

/// The hash type of a signature is its last byte; 0 of no byte. Takes no memory.
pub fn last_byte(sig: &[u8]) -> u8
    ensures { result ≡ the_last_byte sig.now }
{
    match sig.last() {
        Some(byte) => *byte,
        None => 0,
    }
}
