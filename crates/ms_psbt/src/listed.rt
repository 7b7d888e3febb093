//! What is wrong with a pair by its form.

ghost use Rattle.std.specs.Prelude.{◌≡◌, ◌^◌, ◌<◌, length, IfOk};
ghost use Rattle.def_psbt.specs.Listed.{version_fault as the_version_fault, global_form, input_form, output_form, preimage, shape_fault as the_shape_fault};
ghost use Rattle.def_psbt.specs.Forms.{is_size as the_is_size, is_time as the_is_time, is_height as the_is_height};
ghost use Rattle.ms_psbt.specs.Scaffolding.Kinds.{forms_of, passing, later_fault, fault_by};

use crate::forms::{digest_length, is_derivation, is_digest, is_public_key};
use crate::pairs::PairRef;
use crate::parts::first_size;
use crate::signature::is_signature;
use crate::transaction::{is_network_transaction, is_output, is_unsigned, is_witness};
use def_psbt::{PsbtFault, PsbtVersion, types};
use ms_hash::HashKind;
use std::alloc::{AllocError, Global};

/// Which maps these are.
#[derive(Clone, Copy, Debug, PartialEq, Eq)]
pub enum MapKind {
    /// The global map.
    Global,
    /// Those of inputs of a version.
    Input(PsbtVersion),
    /// Those of outputs of a version.
    Output(PsbtVersion),
}

/// What is wrong with a pair by its key and its value alone. `AllocError` comes only where memory is wanting.
pub fn shape_fault(
    alloc: Global,
    kind: MapKind,
    pair: &PairRef<'_>,
) -> Result<Option<PsbtFault>, AllocError>
    requires { length pair.now.value < 2 ^ 32 }
    ensures { IfOk result (λ fault. fault ≡ the_shape_fault (forms_of kind) pair.now) }
{
    match first_size(pair.key()) {
        Some((type_number, key_data)) => typed_fault(
            alloc,
            kind,
            type_number,
            key_data,
            pair.value(),
        ),
        None => Ok(Some(PsbtFault::KeyForm)),
    }
}

fn typed_fault(
    alloc: Global,
    kind: MapKind,
    type_number: u64,
    key_data: &[u8],
    value: &[u8],
) -> Result<Option<PsbtFault>, AllocError>
    requires { length value.now < 2 ^ 32 }
    ensures { IfOk result (λ fault. fault ≡ fault_by (forms_of kind type_number) key_data.now value.now) }
{
    match kind {
        MapKind::Global => global_fault(alloc, type_number, key_data, value),
        MapKind::Input(version) => Ok(input_fault(version, type_number, key_data, value)),
        MapKind::Output(version) => Ok(output_fault(version, type_number, key_data, value)),
    }
}

fn passes(is_key: bool, is_value: bool) -> Option<PsbtFault>
    ensures { result ≡ passing is_key is_value }
{
    if !is_key {
        Some(PsbtFault::KeyForm)
    } else if !is_value {
        Some(PsbtFault::ValueForm)
    } else {
        None
    }
}

#[tactic(auto, unfolding(def_psbt::specs::Listed::global_form))]
fn global_fault(
    alloc: Global,
    type_number: u64,
    key_data: &[u8],
    value: &[u8],
) -> Result<Option<PsbtFault>, AllocError>
    requires { length value.now < 2 ^ 32 }
    ensures { IfOk result (λ fault. fault ≡ fault_by (global_form type_number) key_data.now value.now) }
{
    match type_number {
        types::GLOBAL_UNSIGNED_TX => Ok(passes(key_data.is_empty(), is_unsigned(alloc, value)?)),
        types::GLOBAL_TX_VERSION | types::GLOBAL_FALLBACK_LOCKTIME => Ok(passes(
            key_data.is_empty(),
            value.len() == 4,
        )),
        types::GLOBAL_INPUT_COUNT | types::GLOBAL_OUTPUT_COUNT => Ok(passes(
            key_data.is_empty(),
            is_size(value),
        )),
        types::GLOBAL_TX_MODIFIABLE => Ok(passes(key_data.is_empty(), value.len() == 1)),
        types::GLOBAL_VERSION => Ok(if key_data.is_empty() {
            version_fault(value)
        } else {
            Some(PsbtFault::KeyForm)
        }),
        _ => Ok(None),
    }
}

fn version_fault(value: &[u8]) -> Option<PsbtFault>
    ensures { result ≡ the_version_fault value.now }
{
    match *value {
        [0 | 2, 0, 0, 0] => None,
        [_, _, _, _] => Some(PsbtFault::Version),
        _ => Some(PsbtFault::ValueForm),
    }
}

#[tactic(auto, unfolding(def_psbt::specs::Listed::input_form))]
fn input_fault(
    version: PsbtVersion,
    type_number: u64,
    key_data: &[u8],
    value: &[u8],
) -> Option<PsbtFault>
    ensures { result ≡ fault_by (input_form version type_number) key_data.now value.now }
{
    match type_number {
        types::IN_NON_WITNESS_UTXO => passes(key_data.is_empty(), is_network_transaction(value)),
        types::IN_WITNESS_UTXO => passes(key_data.is_empty(), is_output(value)),
        types::IN_PARTIAL_SIG => passes(is_public_key(key_data), is_signature(value)),
        types::IN_SIGHASH_TYPE => passes(key_data.is_empty(), value.len() == 4),
        types::IN_REDEEM_SCRIPT | types::IN_WITNESS_SCRIPT | types::IN_FINAL_SCRIPTSIG => passes(
            key_data.is_empty(),
            true,
        ),
        types::IN_BIP32_DERIVATION => passes(is_public_key(key_data), is_derivation(value)),
        types::IN_FINAL_SCRIPTWITNESS => passes(key_data.is_empty(), is_witness(value)),
        types::IN_RIPEMD160 => preimage_fault(HashKind::Ripemd160, key_data, value),
        types::IN_SHA256 => preimage_fault(HashKind::Sha256, key_data, value),
        types::IN_HASH160 => preimage_fault(HashKind::Hash160, key_data, value),
        types::IN_HASH256 => preimage_fault(HashKind::Hash256, key_data, value),
        types::IN_PREVIOUS_TXID => later(version, passes(key_data.is_empty(), value.len() == 32)),
        types::IN_OUTPUT_INDEX | types::IN_SEQUENCE => later(
            version,
            passes(key_data.is_empty(), value.len() == 4),
        ),
        types::IN_REQUIRED_TIME_LOCKTIME => later(
            version,
            passes(key_data.is_empty(), is_time(value)),
        ),
        types::IN_REQUIRED_HEIGHT_LOCKTIME => later(
            version,
            passes(key_data.is_empty(), is_height(value)),
        ),
        _ => None,
    }
}

#[tactic(auto, unfolding(def_psbt::specs::Listed::output_form))]
fn output_fault(
    version: PsbtVersion,
    type_number: u64,
    key_data: &[u8],
    value: &[u8],
) -> Option<PsbtFault>
    ensures { result ≡ fault_by (output_form version type_number) key_data.now value.now }
{
    match type_number {
        types::OUT_REDEEM_SCRIPT | types::OUT_WITNESS_SCRIPT => passes(key_data.is_empty(), true),
        types::OUT_BIP32_DERIVATION => passes(is_public_key(key_data), is_derivation(value)),
        types::OUT_AMOUNT => later(version, passes(key_data.is_empty(), value.len() == 8)),
        types::OUT_SCRIPT => later(version, passes(key_data.is_empty(), true)),
        _ => None,
    }
}

/// What is wrong with a pair of a type that stands in version 2 alone.
fn later(version: PsbtVersion, fault: Option<PsbtFault>) -> Option<PsbtFault>
    ensures { result ≡ later_fault version fault }
{
    match (version, fault) {
        (PsbtVersion::Zero, None) => Some(PsbtFault::Excluded),
        _ => fault,
    }
}

/// Whether bytes are a size and nothing else.
#[tactic(auto, unfolding(def_psbt::specs::Part::whole))]
fn is_size(bytes: &[u8]) -> bool
    ensures { result ≡ the_is_size bytes.now }
{
    match first_size(bytes) {
        Some((_, rest)) => rest.is_empty(),
        None => false,
    }
}

/// Lock times from this number on are times, and those below are heights (BIP 65).
const LOCKTIME_THRESHOLD: u32 = 500_000_000;

/// Whether bytes are a lock time that is a time.
fn is_time(bytes: &[u8]) -> bool
    ensures { result ≡ the_is_time bytes.now }
{
    match *bytes {
        [a, b, c, d] => u32::from_le_bytes([a, b, c, d]) >= LOCKTIME_THRESHOLD,
        _ => false,
    }
}

/// Whether bytes are a lock time that is a height, which isn't 0.
fn is_height(bytes: &[u8]) -> bool
    ensures { result ≡ the_is_height bytes.now }
{
    match *bytes {
        [a, b, c, d] => {
            let number = u32::from_le_bytes([a, b, c, d]);
            number > 0 && number < LOCKTIME_THRESHOLD
        }
        _ => false,
    }
}

fn preimage_fault(kind: HashKind, key_data: &[u8], value: &[u8]) -> Option<PsbtFault>
    ensures { result ≡ fault_by (preimage kind) key_data.now value.now }
{
    if key_data.len() != digest_length(kind) {
        Some(PsbtFault::KeyForm)
    } else if !is_digest(kind, value, key_data) {
        Some(PsbtFault::ValueForm)
    } else {
        None
    }
}
