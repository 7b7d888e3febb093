//! Definitions of how an input of a PSBT is spent: what it spends, what its signatures sign, its state, and its final map.
#![tactic(auto)]

pub mod examples;

pub use def_sane::Unfit;

/// Which signatures of an input count.
#[derive(Clone, Copy, Debug, PartialEq, Eq)]
pub enum Verification {
    /// Only good signatures count.
    Verified,
    /// Every signature counts, whether it is good or not.
    Unverified,
}

/// Which outputs a signature signs (BIP 143; Bitcoin Core: `SIGHASH_ALL`, `SIGHASH_NONE`, `SIGHASH_SINGLE`).
#[derive(Clone, Copy, Debug, PartialEq, Eq)]
pub enum SignedOutputs {
    /// All outputs.
    All,
    /// No output.
    None,
    /// The output with the number of the input, where there is one.
    Single,
}

/// The hash type of a signature, which says what it signs.
#[derive(Clone, Copy, Debug, PartialEq, Eq)]
pub struct HashType {
    /// Which outputs it signs.
    pub outputs: SignedOutputs,
    /// Whether further inputs may be added (Bitcoin Core: `SIGHASH_ANYONECANPAY`).
    pub anyone_can_pay: bool,
}

/// The kind of a spent output, by its program: its Script, or of P2SH the redeem script (BIP 16, BIP 141).
#[derive(Clone, Copy, Debug, PartialEq, Eq)]
pub enum Kind {
    /// P2WSH: version 0 and the SHA-256 of the witness script.
    P2wsh,
    /// P2WPKH: version 0 and the HASH160 of a public key.
    P2wpkh,
    /// P2SH of a program of P2WSH.
    P2shP2wsh,
    /// P2SH of a program of P2WPKH.
    P2shP2wpkh,
    /// Any other one, and P2SH of which the redeem script isn't known.
    Other,
}

/// The state of an input: of these the first that applies.
#[derive(Clone, Copy, Debug, PartialEq, Eq)]
pub enum State {
    /// Its map has a final scriptSig with a byte, or a final witness with an item.
    Final,
    /// Its map has neither the previous transaction nor the spent output.
    NoUtxo,
    /// The previous transaction isn't that of the outpoint, or has no such output, or has another one than the map.
    WrongUtxo,
    /// The spent output is neither P2WSH nor P2WPKH, by itself or in P2SH.
    OtherOutput,
    /// Its map has no redeem script of a P2SH output, or no witness script of P2WSH.
    NoScript,
    /// The spent output isn't that of the redeem script, or the program of P2WSH isn't that of the witness script.
    WrongScript,
    /// No miniscript has this Script, with the keys of the map.
    NoReading,
    /// The miniscript isn't sane: this is the first reason.
    Unfit(Unfit),
    /// Its signatures are of another hash type than is asked for, or what is asked for is none.
    WrongSighash,
    /// There are over 256 signatures or over 256 preimages.
    TooMany,
    /// What the map holds makes no canonical satisfaction.
    Unsatisfied,
    /// What the map holds makes one.
    Ready,
}
