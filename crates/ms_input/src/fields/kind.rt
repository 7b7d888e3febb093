//! Which field of an input's map a type is.

ghost use Rattle.std.specs.Prelude.{◌≡◌};
ghost use Rattle.ms_input.specs.Kinds.{kind_of as the_kind_of};

use def_psbt::types;

/// A field that counts for spending an input, or another one.
#[derive(Clone, Copy, Debug, PartialEq, Eq)]
pub enum Kind {
    /// The transaction whose output is spent.
    Previous,
    /// The output that is spent.
    Output,
    /// A signature, with its key.
    Signature,
    /// The hash type that is asked.
    Asked,
    /// The redeem script.
    Redeem,
    /// The witness script.
    Script,
    /// A key, with the path to it.
    Derivation,
    /// The final scriptSig.
    FinalScriptSig,
    /// The final witness.
    FinalWitness,
    /// A preimage, with its hash.
    Preimage,
    /// Any other one.
    Other,
}

/// The kind of a type.
pub fn kind_of(type_number: u64) -> Kind
    ensures { result ≡ the_kind_of type_number }
{
    if type_number == types::IN_NON_WITNESS_UTXO {
        Kind::Previous
    } else if type_number == types::IN_WITNESS_UTXO {
        Kind::Output
    } else if type_number == types::IN_PARTIAL_SIG {
        Kind::Signature
    } else if type_number == types::IN_SIGHASH_TYPE {
        Kind::Asked
    } else if type_number == types::IN_REDEEM_SCRIPT {
        Kind::Redeem
    } else if type_number == types::IN_WITNESS_SCRIPT {
        Kind::Script
    } else if type_number == types::IN_BIP32_DERIVATION {
        Kind::Derivation
    } else if type_number == types::IN_FINAL_SCRIPTSIG {
        Kind::FinalScriptSig
    } else if type_number == types::IN_FINAL_SCRIPTWITNESS {
        Kind::FinalWitness
    } else if types::IN_RIPEMD160 <= type_number && type_number <= types::IN_HASH256 {
        Kind::Preimage
    } else {
        Kind::Other
    }
}
