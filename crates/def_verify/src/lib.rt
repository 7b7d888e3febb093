//! Definitions of what is said of signatures: what consensus has each sign, which are good, and whether final fields are valid.
#![tactic(auto)]

pub mod examples;
pub mod laws;

pub use def_curve::Judgement;
pub use def_machine::ScriptFault;

/// Why an input with final fields isn't known to be valid: the first that applies.
#[derive(Clone, Copy, Debug, PartialEq, Eq)]
pub enum Flaw {
    /// Its map has neither the previous transaction nor the spent output.
    NoUtxo,
    /// The previous transaction isn't that of the outpoint, or has no such output, or has another one than the map.
    WrongUtxo,
    /// The program of the spent output is neither P2WSH nor P2WPKH; or there is none, and the final witness has no item.
    OtherOutput,
    /// The final scriptSig isn't the one push of a redeem script that is the spent P2SH output's; or of another output it has a byte.
    ScriptSig,
    /// The program of P2WSH isn't that of the last item of the final witness, or there is no item.
    WrongScript,
    /// The final witness of P2WPKH hasn't exactly two items.
    ItemCount,
    /// The run is refused for this fault, at the instruction with this number, from 0.
    Refused(ScriptFault, u32),
}
