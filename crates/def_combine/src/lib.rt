//! Definitions of what becomes of PSBTs of one transaction that are combined (BIP 174, "Combiner"): the lines that have them, what is refused,
//! and what is put together.
#![tactic(auto)]

pub mod examples;

use def_psbt::Refusal;

/// Why the PSBT of a line is refused.
#[derive(Clone, Copy, Debug, PartialEq, Eq)]
pub enum LineFault {
    /// It is refused as every PSBT is.
    Psbt(Refusal),
    /// Its version isn't that of the first PSBT.
    OtherVersion,
    /// Its transaction isn't that of the first PSBT.
    OtherTransaction,
}

/// Why nothing is combined.
#[derive(Clone, Copy, Debug, PartialEq, Eq)]
pub enum CombineRefusal {
    /// Over 16,777,216 bytes came.
    TooLong,
    /// No line has a PSBT.
    NoPsbt,
    /// The line with this number, from 1, is refused.
    Line(usize, LineFault),
    /// What was put together has another lock time than each of the PSBTs.
    OtherTransaction,
}
