//! Plan files.
ghost use Rattle.std.specs.Prelude.{◌≡◌, ◌^◌, ◌<◌, ◌≤◌, [], ◌∷◌, ◌++◌, length, map, is_some, IsTrue, IfOk, IfSome};
ghost use Rattle.std.specs.List.{list_all, list_any};
ghost use Rattle.std.specs.Str.{bytes_eq};
ghost use Rattle.serde_json.specs.View.{view};
ghost use Rattle.def_script.specs.Key.{is_key};
ghost use Rattle.def_script.specs.Signature.{is_signature_size as the_is_signature_size};
ghost use Rattle.def_files.specs.AssetFile.{is_preimage};
ghost use Rattle.def_files.specs.Parts.{bytes_of, is_hex, key_of};
ghost use Rattle.def_files.specs.Refusals.{unless_any};
ghost use Rattle.def_plan.specs.PlanFile.{key_elements, number_at_length, is_estimate as the_is_estimate, is_hex_key, length_at, plan_refusals, plan_in as the_plan_in, plan_file_of};
ghost use Rattle.def_plan.specs.FileLaws.{IsPlanFile};
ghost use Rattle.ms_assets.specs.Parts.{first_refused, Reads, ReadsOr, IsOr, repeated};
ghost use Rattle.ms_plan_file.specs.Scaffolding.Reading.{seen, file_with, parts_seen, shape_of_keys, entries_at, value_refusals};

use crate::lengths::{KeyLength, KeyLengths, MOST_KEYS};
use def_plan::{PlanFault, PlanMember};
use ms_assets::{
    Assets, ListFault, MOST_PREIMAGES, Member, Preimage, few, is_same_key, list_at, number_of,
    preimages_of, read_json, read_locks, spelled_at, strings_of, text_at, text_list,
};
use ms_bytes::{Blob, Stack, is_signature_size};
use ms_oracle::Locks;
use ms_tree::Key;
use serde_json::Value;
use std::alloc::{AllocError, Global};
use std::marker::Model;

/// What a plan is made by. Contracts see the definition's plan file.
#[derive(Debug, Drop)]
pub struct PlanFile {
    /// The values of the locks and the preimages, without a signature.
    pub assets: Assets,
    /// The keys that can sign, each with the estimated length of its signature.
    pub table: KeyLengths,
}

impl Model for PlanFile {
    ghost use Rattle.def_plan.specs.PlanFile.{PlanFile as Given};

    ghost Value = { Given };

    ghost view = { λ f. record { assets = f.assets; table = f.table } };
}

/// Reads a plan file: a JSON object with the numbers `version`, `sequence` and `locktime` and the list `preimages` of an
/// asset file, and the list `keys` of objects with a text `key` and a number `length`. All may be missing, and other members
/// are passed over. A key is spelled by hexadecimal digits, and a length is 1 to 73 bytes.
///
/// Of the refusals that apply the first in the order of `PlanFault` is given, then the first in the order of `PlanMember`,
/// then the one with the least place. Want of memory, `Memory`, may come in place of any answer. `bytes` has at most 2^31
/// bytes. What is read has no signature, and lengths as `Estimate::new` asks for.
#[tactic(auto, unfolding(def_plan::specs::PlanFile::plan_file_of))]
pub fn read_plan(alloc: Global, bytes: &[u8]) -> Result<PlanFile, PlanFault>
    requires { length bytes.now ≤ 2 ^ 31 }
    ensures file { IsOr PlanFault.Memory (plan_file_of bytes.now) result }
    ensures usable { IfOk result (λ file. IsPlanFile file) }
{
    match read_json(alloc, bytes, PlanFault::NotJson, PlanFault::Memory) {
        Ok(file) => match plan_in(alloc, &file) {
            Ok(parts) => Ok(file_of_parts(alloc, parts)),
            Err(why) => Err(why),
        },
        Err(why) => Err(why),
    }
}

/// The parts of a plan file, before it is known that they make up assets.
#[derive(Drop)]
pub struct PlanParts {
    /// The values of the locks.
    pub locks: Locks,
    /// The preimages, in the order of the file.
    pub preimages: Vec<Preimage>,
    /// The keys that can sign, with their lengths, in the order of the file.
    pub table: KeyLengths,
}

/// A plan file of these parts.
fn file_of_parts(alloc: Global, parts: PlanParts) -> PlanFile
    requires { IsPlanFile (seen parts) }
    ensures { result ≡ seen parts }
{
    PlanFile {
        assets: Assets::of_preimages(alloc, parts.locks, parts.preimages),
        table: parts.table,
    }
}

/// What stands in a plan file.
fn plan_in(alloc: Global, file: &Value) -> Result<PlanParts, PlanFault>
    ensures { IsOr PlanFault.Memory (unless_any (plan_refusals (view file.now)) (the_plan_in (view file.now))) (parts_seen result) }
{
    if !file.is_object() {
        return Err(PlanFault::Shape(PlanMember::Whole));
    }
    let keys = estimate_list(file)?;
    let preimages = text_list(
        file,
        Member::Preimages,
        PlanFault::Shape(PlanMember::Preimages),
        PlanFault::Memory,
    )?;
    let locks = read_locks(
        file,
        PlanFault::Number(PlanMember::Version),
        PlanFault::Number(PlanMember::Sequence),
        PlanFault::Number(PlanMember::Locktime),
    )?;
    let entries = read_entries(alloc, keys)?;
    let strings = read_strings(alloc, preimages)?;
    check_parts(alloc, locks, entries.as_slice(), &strings)
}

/// The elements of the keys, each an object with the text `key` and the number `length`.
fn estimate_list(file: &Value) -> Result<&[Value], PlanFault>
    ensures elements { ReadsOr PlanFault.Memory (shape_of_keys (view file.now)) (λ list. map view list.now) (key_elements (view file.now)) result }
    ensures few { IfOk result (λ list. length list.now < 2 ^ 32) }
{
    match list_at(file, "keys") {
        Some(elements) if are_estimates(elements) => few(elements, PlanFault::Memory),
        _ => Err(PlanFault::Shape(PlanMember::Keys)),
    }
}

fn are_estimates(elements: &[Value]) -> bool
    ensures { result ≡ list_all the_is_estimate (map view elements.now) }
{
    for element in elements {
        if !is_estimate(element) {
            return false;
        }
    }
    true
}

/// Whether an element is an object with the text `key` and the number `length`.
fn is_estimate(element: &Value) -> bool
    ensures { result ≡ the_is_estimate (view element.now) }
{
    text_at(element, "key").is_some() && length_of(element).is_some()
}

/// The number `length` of an object.
fn length_of(element: &Value) -> Option<u32>
    ensures { result ≡ number_at_length (view element.now) }
{
    number_of(element.get("length")?)
}

/// An element of the keys, before it is known that it has a key and the length of a signature. Contracts see the pair of
/// both.
#[derive(Drop)]
pub struct Entry {
    key: Blob,
    length: u32,
}

impl Model for Entry {
    ghost use Rattle.std.specs.Prelude.{ℕ, List};

    ghost Value = { List ℕ × ℕ };

    ghost view = { λ e. (e.key, e.length) };
}

/// Adds the key that an element spells, with its length, and answers whether it spells one.
fn push_entry(alloc: Global, entries: &mut Vec<Entry>, element: &Value) -> Result<bool, AllocError>
    ensures spells { IfOk result (λ spells. spells ≡ is_hex_key (view element.now)) }
    ensures pushed { IfOk result (λ spells. IsTrue spells → entries.new.items ≡ entries.old.items ++ (key_of (view element.now), length_at (view element.now)) ∷ []) }
{
    let Some(key) = spelled_at(alloc, element, "key")? else {
        return Ok(false);
    };
    let length = length_of(element).unwrap_or(0);
    let key = Blob::from_vec(key);
    entries.push(Entry { key, length })?;
    Ok(true)
}

/// The keys that the elements spell, with their lengths, or the refusal of the first that spells none.
fn read_entries(alloc: Global, elements: &[Value]) -> Result<Vec<Entry>, PlanFault>
    requires { length elements.now < 2 ^ 32 }
    ensures { ReadsOr PlanFault.Memory (first_refused is_hex_key (PlanFault.Hex PlanMember.Keys) (map view elements.now)) (λ entries. entries.items) (entries_at (map view elements.now)) result }
{
    let mut entries = Vec::new(alloc);
    let mut place = 0;
    for element in elements {
        match push_entry(alloc, &mut entries, element) {
            Ok(true) => place += 1,
            Ok(false) => return Err(PlanFault::Hex(PlanMember::Keys, place)),
            Err(AllocError) => return Err(PlanFault::Memory),
        }
    }
    Ok(entries)
}

/// The byte strings that the preimages spell, or the refusal of the first that spells none.
fn read_strings(alloc: Global, elements: &[Value]) -> Result<Stack, PlanFault>
    requires { length elements.now < 2 ^ 32 }
    ensures { ReadsOr PlanFault.Memory (first_refused is_hex (PlanFault.Hex PlanMember.Preimages) (map view elements.now)) (λ strings. strings) (map bytes_of (map view elements.now)) result }
{
    match strings_of(alloc, elements) {
        Ok(strings) => Ok(strings),
        Err(ListFault::At(place)) => Err(PlanFault::Hex(PlanMember::Preimages, place)),
        Err(ListFault::Memory) => Err(PlanFault::Memory),
    }
}

/// A plan file's parts of these keys and preimages, where they have their form and length and aren't too many.
fn check_parts(
    alloc: Global,
    locks: Locks,
    entries: &[Entry],
    strings: &Stack,
) -> Result<PlanParts, PlanFault>
    requires few_entries { length entries.now < 2 ^ 32 }
    requires few_strings { length strings.now < 2 ^ 32 }
    ensures { IsOr PlanFault.Memory (unless_any (value_refusals entries.now strings.now) (file_with locks strings.now entries.now)) (parts_seen result) }
{
    let keyed = read_keys(alloc, entries)?;
    let table = read_lengths(alloc, &keyed)?;
    let preimages = read_preimages(alloc, strings)?;
    if table.as_slice().len() > MOST_KEYS {
        return Err(PlanFault::TooMany(PlanMember::Keys));
    }
    if preimages.len() > MOST_PREIMAGES {
        return Err(PlanFault::TooMany(PlanMember::Preimages));
    }
    check_repeats(table.as_slice())?;
    Ok(PlanParts {
        locks,
        preimages,
        table,
    })
}

/// A key with a number, before it is known that this is the length of a signature. Contracts see the pair of both.
#[derive(Drop)]
pub struct Keyed {
    key: Key,
    length: u32,
}

impl Model for Keyed {
    ghost use Rattle.std.specs.Prelude.{ℕ, List};

    ghost Value = { List ℕ × ℕ };

    ghost view = { λ e. (e.key, e.length) };
}

/// The key that these bytes are, or `None` where they haven't its form.
fn key_in(bytes: &[u8]) -> Option<Key>
    ensures form { is_some result ≡ is_key bytes.now }
    ensures value { IfSome result (λ key. key ≡ bytes.now) }
{
    Key::from_bytes(bytes)
}

/// The entries with their keys, or the refusal of the first key that hasn't its form.
fn read_keys(alloc: Global, entries: &[Entry]) -> Result<Vec<Keyed>, PlanFault>
    requires { length entries.now < 2 ^ 32 }
    ensures { ReadsOr PlanFault.Memory (first_refused (λ entry. is_key entry.0) PlanFault.KeyForm entries.now) (λ keyed. keyed.items) entries.now result }
{
    let mut keyed = Vec::new(alloc);
    let mut place = 0;
    for entry in entries {
        let Some(key) = key_in(entry.key.as_slice()) else {
            return Err(PlanFault::KeyForm(place));
        };
        let length = entry.length;
        if keyed.push(Keyed { key, length }).is_err() {
            return Err(PlanFault::Memory);
        }
        place += 1;
    }
    Ok(keyed)
}

/// The table of the keys with their lengths, or the refusal of the first length that no signature has.
fn read_lengths(alloc: Global, keyed: &[Keyed]) -> Result<KeyLengths, PlanFault>
    requires { length keyed.now < 2 ^ 32 }
    ensures { ReadsOr PlanFault.Memory (first_refused (λ entry. the_is_signature_size entry.1) PlanFault.Length keyed.now) (λ table. table) keyed.now result }
{
    let mut entries = Vec::new(alloc);
    let mut place = 0;
    for entry in keyed {
        let length = entry.length;
        if !is_signature_size(length as usize) {
            return Err(PlanFault::Length(place));
        }
        let key = entry.key;
        let length = length as u8;
        if entries.push(KeyLength { key, length }).is_err() {
            return Err(PlanFault::Memory);
        }
        place += 1;
    }
    Ok(KeyLengths::from_vec(entries))
}

/// The preimages, or the refusal of the first that hasn't 32 bytes.
fn read_preimages(alloc: Global, strings: &Stack) -> Result<Vec<Preimage>, PlanFault>
    requires { length strings.now < 2 ^ 32 }
    ensures { ReadsOr PlanFault.Memory (first_refused is_preimage PlanFault.PreimageLength strings.now) (λ preimages. preimages.items) strings.now result }
{
    match preimages_of(alloc, strings) {
        Ok(preimages) => Ok(preimages),
        Err(ListFault::At(place)) => Err(PlanFault::PreimageLength(place)),
        Err(ListFault::Memory) => Err(PlanFault::Memory),
    }
}

/// Refuses the first key that stands earlier too.
fn check_repeats(table: &[KeyLength]) -> Result<(), PlanFault>
    requires { length table.now < 2 ^ 32 }
    ensures { Reads (repeated PlanFault.RepeatedKey table.now) (λ unit. unit) tt result }
{
    for i in 0..table.len() {
        if holds_key_of(&table[..i], &table[i]) {
            return Err(PlanFault::RepeatedKey(i as u32));
        }
    }
    Ok(())
}

/// Whether an entry has the key of this one.
fn holds_key_of(table: &[KeyLength], wanted: &KeyLength) -> bool
    ensures { result ≡ list_any (λ entry. bytes_eq wanted.now.0 entry.0) table.now }
{
    for entry in table {
        if is_same_key(wanted.key.as_bytes(), entry.key.as_bytes()) {
            return true;
        }
    }
    false
}
