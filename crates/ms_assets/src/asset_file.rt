//! Asset files.

ghost use Rattle.std.specs.Prelude.{◌^◌, ◌<◌, ◌≤◌, length};
ghost use Rattle.serde_json.specs.View.{view};
ghost use Rattle.def_files.specs.AssetFile.{is_preimage, asset_refusals, assets_in as the_assets_in, assets_of};
ghost use Rattle.def_files.specs.Refusals.{unless_any};
ghost use Rattle.ms_assets.specs.Scaffolding.Seen.{parts_seen};
ghost use Rattle.ms_assets.specs.Parts.{first_refused, ReadsOr, ReadsOrMemory, IsOrMemory, value_refusals};

use crate::checking::{check_keys, check_repeats, check_signatures};
use crate::list_fault::ListFault;
use crate::members::{pair_list, read_format, read_json, read_locks, text_list};
use crate::texts::{read_pairs, read_strings};
use def_files::{AssetFault, Format, Member};
use ms_bytes::Stack;
use ms_held::{Assets, MOST_PREIMAGES, MOST_SIGNATURES, Preimage, Signatures};
use ms_oracle::{Locks, Pairs};
use serde_json::Value;
use std::alloc::Global;

/// Reads an asset file: a JSON object with the numbers `version`, `sequence` and `locktime`, the list
/// `signatures` of objects with the texts `key` and `sig`, the list `preimages` of texts, and the number
/// `format`, 1 or 2. All may be missing; the format is then 1. Bytes are spelled by hexadecimal digits.
/// In format 1 a key has one signature; in format 2 it may have several, and none of them stands twice.
///
/// Of the refusals that apply the first in the order of `AssetFault` is given, then the first in the
/// order of `Member`, then the one with the least place. Want of memory, `Memory`, may come in place of
/// any answer. `bytes` has at most 2^31 bytes.
#[tactic(auto, unfolding(def_files::specs::AssetFile::assets_of))]
pub fn read_assets(alloc: Global, bytes: &[u8]) -> Result<Assets, AssetFault>
    requires { length bytes.now ≤ 2 ^ 31 }
    ensures { IsOrMemory (assets_of bytes.now) result }
{
    let file = read_json(alloc, bytes, AssetFault::NotJson, AssetFault::Memory)?;
    let parts = assets_in(alloc, &file)?;
    Ok(Assets::of_parts(parts.locks, parts.pairs, parts.preimages))
}

/// The parts of assets, before it is known that they are few and have their form.
#[derive(Drop)]
pub struct AssetParts {
    /// The values of the locks.
    pub locks: Locks,
    /// The signatures with their keys, in the order of the file.
    pub pairs: Signatures,
    /// The preimages, in the order of the file.
    pub preimages: Vec<Preimage>,
}

/// What stands in an asset file.
fn assets_in(alloc: Global, file: &Value) -> Result<AssetParts, AssetFault>
    ensures { IsOrMemory (unless_any (asset_refusals (view file.now)) (the_assets_in (view file.now))) (parts_seen result) }
{
    if !file.is_object() {
        return Err(AssetFault::Shape(Member::Whole));
    }
    let signatures = pair_list(file)?;
    let preimages = text_list(
        file,
        Member::Preimages,
        AssetFault::Shape(Member::Preimages),
        AssetFault::Memory,
    )?;
    let locks = read_locks(
        file,
        AssetFault::Number(Member::Version),
        AssetFault::Number(Member::Sequence),
        AssetFault::Number(Member::Locktime),
    )?;
    let format = read_format(file)?;
    let pairs = read_pairs(alloc, signatures)?;
    let strings = read_strings(alloc, preimages, Member::Preimages)?;
    check_parts(alloc, format, locks, pairs, &strings)
}

/// Parts of assets, where they have their form and length and aren't too many.
fn check_parts(
    alloc: Global,
    format: Format,
    locks: Locks,
    pairs: Pairs,
    strings: &Stack,
) -> Result<AssetParts, AssetFault>
    requires few_pairs { length pairs < 2 ^ 32 }
    requires few_strings { length strings.now < 2 ^ 32 }
    ensures { IsOrMemory (unless_any (value_refusals format pairs strings.now) (record { locks = locks; pairs = pairs; preimages = strings.now })) (parts_seen result) }
{
    check_keys(pairs.as_slice())?;
    check_signatures(pairs.as_slice())?;
    let preimages = read_preimages(alloc, strings)?;
    if pairs.as_slice().len() > MOST_SIGNATURES {
        return Err(AssetFault::TooMany(Member::Signatures));
    }
    if preimages.len() > MOST_PREIMAGES {
        return Err(AssetFault::TooMany(Member::Preimages));
    }
    check_repeats(format, pairs.as_slice())?;
    let pairs = Signatures::of_pairs(alloc, pairs)?;
    Ok(AssetParts {
        locks,
        pairs,
        preimages,
    })
}

/// The preimages, or the refusal of the first that hasn't 32 bytes.
fn read_preimages(alloc: Global, strings: &Stack) -> Result<Vec<Preimage>, AssetFault>
    requires { length strings.now < 2 ^ 32 }
    ensures { ReadsOrMemory (first_refused is_preimage AssetFault.PreimageLength strings.now) (λ preimages. preimages.items) strings.now result }
{
    match preimages_of(alloc, strings) {
        Ok(preimages) => Ok(preimages),
        Err(ListFault::At(place)) => Err(AssetFault::PreimageLength(place)),
        Err(ListFault::Memory) => Err(AssetFault::Memory),
    }
}

/// The preimages that these byte strings are, or the place of the first that hasn't 32 bytes.
pub fn preimages_of(alloc: Global, strings: &Stack) -> Result<Vec<Preimage>, ListFault>
    requires { length strings.now < 2 ^ 32 }
    ensures { ReadsOr ListFault.Memory (first_refused is_preimage ListFault.At strings.now) (λ preimages. preimages.items) strings.now result }
{
    let mut preimages = Vec::new(alloc);
    for i in 0..strings.len() {
        let Ok(bytes) = <[u8; 32]>::try_from(strings.item(i)) else {
            return Err(ListFault::At(i as u32));
        };
        preimages.push(Preimage::new(bytes))?;
    }
    Ok(preimages)
}
