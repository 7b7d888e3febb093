//! The pairs that belong to a map.

ghost use Rattle.std.specs.Prelude.{◌≡◌, ◌++◌, map, flat_map, option_map, OnOk, IfOk};
ghost use Rattle.std.specs.Int.{w32, to_le_bytes};
ghost use Rattle.ms_paths.specs.Paths.{origin_at};
ghost use Rattle.def_update.specs.Known.{typed, script_pairs, derivation as the_derivation, derivation_pair, belonging as the_belonging};
ghost use Rattle.ms_update.specs.Seen.{pair_at, key_at, known_at, types_of};

use crate::known::{KnownKey, KnownOutput};
use def_psbt::types;
use ms_paths::Origin;
use std::alloc::{AllocError, Global};

/// A pair.
#[derive(Debug, Drop)]
pub struct OwnPair {
    /// The key, its type and its data.
    pub key: Vec<u8>,
    /// The value.
    pub value: Vec<u8>,
}

/// Whose map it is.
#[derive(Clone, Copy, Debug, PartialEq, Eq)]
pub enum Owner {
    /// An input.
    Input,
    /// An output.
    Output,
}

impl Owner {
    /// The type of the pair of a redeem script.
    fn redeem_script(self) -> u8
        ensures { result ≡ (types_of self).redeem_script }
    {
        match self {
            Owner::Input => types::IN_REDEEM_SCRIPT as u8,
            Owner::Output => types::OUT_REDEEM_SCRIPT as u8,
        }
    }

    /// The type of the pair of a witness script.
    fn witness_script(self) -> u8
        ensures { result ≡ (types_of self).witness_script }
    {
        match self {
            Owner::Input => types::IN_WITNESS_SCRIPT as u8,
            Owner::Output => types::OUT_WITNESS_SCRIPT as u8,
        }
    }

    /// The type of the pairs of keys.
    fn bip32_derivation(self) -> u8
        ensures { result ≡ (types_of self).bip32_derivation }
    {
        match self {
            Owner::Input => types::IN_BIP32_DERIVATION as u8,
            Owner::Output => types::OUT_BIP32_DERIVATION as u8,
        }
    }
}

/// The pair of a type with data, and its value.
fn typed_pair(
    alloc: Global,
    type_number: u8,
    key_data: &[u8],
    value: Vec<u8>,
) -> Result<OwnPair, AllocError>
    ensures { IfOk result (λ pair. pair_at pair ≡ typed type_number key_data.now value.items) }
{
    let mut key = Vec::new(alloc);
    key.push(type_number)?;
    key.extend_from_slice(key_data)?;
    Ok(OwnPair { key, value })
}

/// Adds the pair of a Script, where there is one.
fn push_script(
    alloc: Global,
    pairs: &mut Vec<OwnPair>,
    type_number: u8,
    script: &Option<Vec<u8>>,
) -> Result<(), AllocError>
    ensures { OnOk result (map pair_at pairs.new.items ≡ map pair_at pairs.old.items ++ script_pairs type_number (option_map (λ s. s.items) script.now)) }
{
    let Some(script) = script else {
        return Ok(());
    };
    let value = Vec::from_slice(alloc, script)?;
    pairs.push(typed_pair(alloc, type_number, &[], value)?)?;
    Ok(())
}

/// Adds each step, low byte first.
fn push_steps(value: &mut Vec<u8>, steps: &[u32]) -> Result<(), AllocError>
    ensures { OnOk result (value.new.items ≡ value.old.items ++ flat_map (to_le_bytes w32) steps.now) }
{
    'steps: for step in steps {
        value.extend_from_slice(&step.to_le_bytes())?;
    }
    Ok(())
}

/// The fingerprint, and each step, low byte first.
fn derivation(alloc: Global, origin: &Origin) -> Result<Vec<u8>, AllocError>
    ensures { IfOk result (λ value. value.items ≡ the_derivation (origin_at origin.now)) }
{
    let mut value = Vec::from_slice(alloc, &origin.print)?;
    push_steps(&mut value, &origin.steps)?;
    Ok(value)
}

/// Adds the pairs of keys.
fn push_keys(
    alloc: Global,
    pairs: &mut Vec<OwnPair>,
    type_number: u8,
    keys: &[KnownKey],
) -> Result<(), AllocError>
    ensures { OnOk result (map pair_at pairs.new.items ≡ map pair_at pairs.old.items ++ map (derivation_pair type_number) (map key_at keys.now)) }
{
    'keys: for known in keys {
        let value = derivation(alloc, &known.origin)?;
        pairs.push(typed_pair(alloc, type_number, known.key.as_bytes(), value)?)?;
    }
    Ok(())
}

/// The pairs of an output that belong to a map, in the order of their types. Refuses for want of memory alone.
pub fn belonging(
    alloc: Global,
    owner: Owner,
    known: &KnownOutput,
) -> Result<Vec<OwnPair>, AllocError>
    ensures { IfOk result (λ pairs. map pair_at pairs.items ≡ the_belonging (types_of owner) (known_at known.now)) }
{
    let mut pairs = Vec::new(alloc);
    push_script(alloc, &mut pairs, owner.redeem_script(), &known.redeem)?;
    push_script(alloc, &mut pairs, owner.witness_script(), &known.witness)?;
    push_keys(alloc, &mut pairs, owner.bip32_derivation(), &known.keys)?;
    Ok(pairs)
}
