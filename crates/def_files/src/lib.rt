//! Definitions of the asset file and the run file: what their bytes give, and why they are refused.
#![tactic(auto)]

ghost use Rattle.std.specs.Prelude.{◌≡◌};
ghost use Rattle.def_files.specs.declared.AssetFault.TheVariants as fault;

use std::alloc::AllocError;

pub mod examples;
pub mod laws;

/// A part of a file that a refusal names, in the order in which parts are named.
#[derive(Clone, Copy, Debug, PartialEq, Eq)]
pub enum Member {
    /// The file as a whole.
    Whole,
    /// The version of the transaction.
    Version,
    /// The sequence number of the input.
    Sequence,
    /// The locktime of the transaction.
    Locktime,
    /// The signatures, each with its key.
    Signatures,
    /// The preimages of an asset file.
    Preimages,
    /// The script of a run file.
    Script,
    /// The stack of a run file, bottom first.
    Witness,
    /// The format of an asset file.
    Format,
}

/// The format of an asset file, which its member `format` names by a number.
#[derive(Clone, Copy, Debug, PartialEq, Eq)]
pub enum Format {
    /// Format 1, also where the member is missing: a key has one signature.
    One,
    /// Format 2: a key may have several signatures.
    Two,
}

/// Why a file is refused, in the order in which the reasons are tested. A number is the place of an element
/// in its list, from 0. A run file is refused by `NotJson`, `Shape`, `Number`, `Hex` and `TooMany` alone.
#[derive(Clone, Copy, Debug, PartialEq, Eq)]
pub enum AssetFault {
    /// The bytes are no UTF-8, or no JSON text (RFC 8259), or one whose lists and objects nest more than 127
    /// deep, or which has a number over the greatest float of 64 bits.
    NotJson,
    /// The file is no object, or the member or an element of it has the wrong shape. The script of a run
    /// file has it too where it is missing.
    Shape(Member),
    /// The member is no whole number below 2^32, written with no fraction, no exponent and no minus sign; or the
    /// format of an asset file is none of 1 and 2.
    Number(Member),
    /// A text of the element has an odd number of characters or one that is no hexadecimal digit. The place
    /// is 0 for a script.
    Hex(Member, u32),
    /// The key of the signature isn't 33 bytes that begin with 2 or 3, as BIP 143 asks of P2WSH.
    KeyForm(u32),
    /// The signature hasn't 1 to 73 bytes: BIP 66 has at most 72 and the hash type.
    SigLength(u32),
    /// The preimage hasn't 32 bytes.
    PreimageLength(u32),
    /// The list has too many elements: over 256 signatures or preimages, or over 2,000 elements of a stack.
    TooMany(Member),
    /// In format 1 the key of the signature is that of an earlier one; in format 2 the key and the signature are.
    RepeatedKey(u32),
    /// There was no memory. No file has this as its answer; a reader gives it in place of any answer.
    Memory,
}

impl From<AllocError> for AssetFault {
    ghost from_gives = { λ _ why. why ≡ fault.Memory };

    fn from(_error: AllocError) -> AssetFault {
        AssetFault::Memory
    }
}
