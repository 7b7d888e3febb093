//! What the global map says of the transaction.

ghost use Rattle.std.specs.Prelude.{◌≡◌, ℕ, true, is_some, Ok};
ghost use Rattle.def_psbt.specs.declared.PsbtVersion.TheVariants.{Zero, Two};
ghost use Rattle.def_psbt.specs.Fields.{version_of};
ghost use Rattle.def_psbt.specs.Listed.{global_form};
ghost use Rattle.def_psbt.specs.Map.{Map, pair_of_type};
ghost use Rattle.def_psbt.specs.Reading.{map_at, misplaced as the_misplaced, outline_in as the_outline_in, unless, outline_or};
ghost use Rattle.ms_psbt.specs.Scaffolding.Outlines.{OutlineThere, OutlineReads};

use crate::maps::no_transaction;
use crate::transaction::transaction_counts;
use crate::values::{has, number_or, place_in, size_of, value_in};
use def_psbt::{PsbtFault, PsbtVersion, Refusal, types};

/// The global map begins behind the magic.
pub const GLOBAL_PLACE: usize = 5;

/// What the global map says of the transaction.
#[derive(Clone, Copy)]
pub enum Outline<'a> {
    /// In version 0 its bytes.
    Given(&'a [u8]),
    /// In version 2 only how many inputs and outputs it has.
    Counted,
}

/// What the global map says, with the numbers of inputs and of outputs.
#[derive(Clone, Copy)]
pub struct Outlined<'a> {
    /// Where the transaction is.
    pub outline: Outline<'a>,
    /// How many inputs there are.
    pub inputs: u64,
    /// How many outputs there are.
    pub outputs: u64,
}

/// The version of a PSBT.
pub fn version_in(psbt: &[u8]) -> PsbtVersion
    ensures { (map : Map × ℕ) → map_at global_form psbt.now 5 ≡ Ok map → result ≡ version_of map.0 }
{
    if number_or(psbt, GLOBAL_PLACE, types::GLOBAL_VERSION, 0) == 2 {
        PsbtVersion::Two
    } else {
        PsbtVersion::Zero
    }
}

/// What stands in the global map of a version and must not.
fn misplaced(version: PsbtVersion, psbt: &[u8]) -> Option<Refusal>
    ensures { (map : Map × ℕ) → map_at global_form psbt.now 5 ≡ Ok map → result ≡ the_misplaced version map.0 }
{
    match version {
        PsbtVersion::Zero => {
            let at = place_in(
                psbt,
                GLOBAL_PLACE,
                types::GLOBAL_TX_VERSION,
                types::GLOBAL_TX_MODIFIABLE,
            )?;
            Some(Refusal::At(PsbtFault::Excluded, at))
        }
        PsbtVersion::Two => {
            if has(psbt, GLOBAL_PLACE, types::GLOBAL_UNSIGNED_TX) {
                let at = place_in(
                    psbt,
                    GLOBAL_PLACE,
                    types::GLOBAL_VERSION,
                    types::GLOBAL_VERSION,
                )?;
                Some(Refusal::At(PsbtFault::Version, at))
            } else {
                None
            }
        }
    }
}

/// What the global map of version 0 says of the transaction, where there is one.
fn given_in(psbt: &[u8]) -> Option<Outlined<'_>>
    ensures { (map : Map × ℕ) → map_at global_form psbt.now 5 ≡ Ok map → OutlineThere result (the_outline_in Zero map.0) }
{
    let Some(value) = value_in(psbt, GLOBAL_PLACE, types::GLOBAL_UNSIGNED_TX) else {
        return None;
    };
    let Some((inputs, outputs)) = transaction_counts(value) else {
        return None;
    };
    Some(Outlined {
        outline: Outline::Given(value),
        inputs,
        outputs,
    })
}

/// What that of version 2 says, where it has what has to stand in it.
fn counted_in(psbt: &[u8]) -> Option<Outlined<'_>>
    ensures { (map : Map × ℕ) → map_at global_form psbt.now 5 ≡ Ok map → OutlineThere result (the_outline_in Two map.0) }
{
    if has(psbt, GLOBAL_PLACE, types::GLOBAL_TX_VERSION) {
        counts_in(psbt)
    } else {
        None
    }
}

/// How many inputs and outputs there are, where the version of the transaction is there.
fn counts_in(psbt: &[u8]) -> Option<Outlined<'_>>
    ensures { (map : Map × ℕ) → map_at global_form psbt.now 5 ≡ Ok map → is_some (pair_of_type 0x02 map.0) ≡ true → OutlineThere result (the_outline_in Two map.0) }
{
    let Some(inputs) = value_in(psbt, GLOBAL_PLACE, types::GLOBAL_INPUT_COUNT) else {
        return None;
    };
    let Some(outputs) = value_in(psbt, GLOBAL_PLACE, types::GLOBAL_OUTPUT_COUNT) else {
        return None;
    };
    Some(Outlined {
        outline: Outline::Counted,
        inputs: size_of(inputs),
        outputs: size_of(outputs),
    })
}

/// What the global map of a version says of the transaction, where it has what has to stand in it.
fn outline_in(version: PsbtVersion, psbt: &[u8]) -> Option<Outlined<'_>>
    ensures { (map : Map × ℕ) → map_at global_form psbt.now 5 ≡ Ok map → OutlineThere result (the_outline_in version map.0) }
{
    match version {
        PsbtVersion::Zero => given_in(psbt),
        PsbtVersion::Two => counted_in(psbt),
    }
}

/// What the global map, which ends before a place, says of the transaction, or the first refusal of the whole map.
pub fn outline_at(version: PsbtVersion, psbt: &[u8], after: usize) -> Result<Outlined<'_>, Refusal>
    ensures { (map : Map × ℕ) → map_at global_form psbt.now 5 ≡ Ok map → OutlineReads result (unless (the_misplaced version map.0) (outline_or (the_outline_in version map.0) after)) }
{
    match misplaced(version, psbt) {
        Some(refusal) => Err(refusal),
        None => match outline_in(version, psbt) {
            Some(outline) => Ok(outline),
            None => Err(no_transaction(after)),
        },
    }
}
