//! Definitions of PSBTs (BIP 174, version 0; BIP 370, version 2): transactions, maps, and how their bytes are read and refused.
#![tactic(auto)]

pub mod examples;
pub mod laws;
pub mod types;

/// The version of a PSBT.
#[derive(Clone, Copy, Debug, PartialEq, Eq)]
pub enum PsbtVersion {
    /// Version 0 (BIP 174), whose global map has the transaction.
    Zero,
    /// Version 2 (BIP 370), whose maps have the fields of the transaction.
    Two,
}

/// Why the bytes of a PSBT are refused at one of them.
#[derive(Clone, Copy, Debug, PartialEq, Eq)]
pub enum PsbtFault {
    /// The bytes end inside a size, a key or a value, or where a pair or the end of a map has to be.
    Truncated,
    /// A size isn't in its shortest spelling.
    Size,
    /// The same key stood before in this map.
    RepeatedKey,
    /// The type inside a key is cut or not in its shortest spelling, or the key of a listed type hasn't its form.
    KeyForm,
    /// The value of a listed type hasn't its form.
    ValueForm,
    /// The global version isn't 0 or 2, or it is 2 and the global map has a transaction.
    Version,
    /// A type that stands in version 2 alone stands in version 0.
    Excluded,
    /// A type that has to stand in a map doesn't: in version 0 the transaction, in version 2 a field of it.
    NoTransaction,
    /// Bytes follow the last map.
    Trailing,
    /// An input of version 2 has the outpoint of one before it.
    RepeatedOutpoint,
    /// Neither a time nor a height serves all inputs of version 2 that ask for a lock time.
    LockTime,
}

/// Why a source is refused.
#[derive(Clone, Copy, Debug, PartialEq, Eq)]
pub enum Refusal {
    /// Over 16,777,216 bytes came.
    TooLong,
    /// The source has neither the magic nor is it base64.
    NotBase64,
    /// What was decoded doesn't begin with the magic.
    Magic,
    /// The fault of the PSBT, at this one of its bytes, counted from 0.
    At(PsbtFault, usize),
}
