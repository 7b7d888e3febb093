//! Definitions of plans: which keys to ask for a signature, what the satisfaction weighs then, and the plan file.
#![tactic(auto)]

pub mod examples;
pub mod laws;

/// A part of a plan file that a refusal names, in the order in which parts are named.
#[derive(Clone, Copy, Debug, PartialEq, Eq)]
pub enum PlanMember {
    /// The file as a whole.
    Whole,
    /// The version of the transaction.
    Version,
    /// The sequence number of the input.
    Sequence,
    /// The locktime of the transaction.
    Locktime,
    /// The keys that can sign, each with the length of its signature.
    Keys,
    /// The preimages.
    Preimages,
}

/// Why a plan file is refused, in the order in which the reasons are tested. A number is the place of an element in its
/// list, from 0.
#[derive(Clone, Copy, Debug, PartialEq, Eq)]
pub enum PlanFault {
    /// The bytes are no UTF-8, or no JSON text (RFC 8259), or one whose lists and objects nest more than 127
    /// deep, or which has a number over the greatest float of 64 bits.
    NotJson,
    /// The file is no object, or the member or an element of it has the wrong shape. An element of the keys has the
    /// text `key` and the number `length`, a whole one below 2^32, written with no fraction, no exponent and no minus
    /// sign.
    Shape(PlanMember),
    /// The member is no whole number below 2^32, written so.
    Number(PlanMember),
    /// A text of the element has an odd number of characters or one that is no hexadecimal digit.
    Hex(PlanMember, u32),
    /// The key isn't 33 bytes that begin with 2 or 3, as BIP 143 asks of P2WSH.
    KeyForm(u32),
    /// The length isn't 1 to 73: BIP 66 has at most 72 and the hash type.
    Length(u32),
    /// The preimage hasn't 32 bytes.
    PreimageLength(u32),
    /// The list has over 256 elements.
    TooMany(PlanMember),
    /// The key is an earlier one.
    RepeatedKey(u32),
    /// There was no memory. No file has this as its answer; a reader gives it in place of any answer.
    Memory,
}
