//! Keys with the lengths that their signatures are estimated to have, and why they are refused.
ghost use Rattle.std.specs.Prelude.{◌≡◌, ◌^◌, ◌<◌, ◌*◌, ◌++◌, [], ◌∷◌, length, All, IfOk, IfSome, OnOk};
ghost use Rattle.std.specs.List.{list_any};
ghost use Rattle.std.specs.Str.{bytes_eq};
ghost use Rattle.def_script.specs.Key.{is_key as the_is_key};
ghost use Rattle.def_script.specs.Signature.{is_signature_size as the_is_signature_size};
ghost use Rattle.def_tree.specs.Range.{IsKey};
ghost use Rattle.ms_assets.specs.Parts.{first, first_refused, Reads, repeated};
ghost use Rattle.ms_arrays.specs.Pieces.{KEY_SIZE as THE_KEY_SIZE, entries_at};
ghost use Rattle.ms_arrays.specs.ArrayPlan.{entry_refusals};

use crate::cutting::KEY_SIZE;
use ms_plan_file::{KeyLength, KeyLengths, PlanFault};
use ms_script::{Blob, is_key, is_signature_size};
use ms_tree::Key;
use std::alloc::{AllocError, Global};
use std::marker::Model;

/// A key with a length, before it is known that it is a key, and this the length of a signature. Contracts see the pair of both.
#[derive(Drop)]
pub struct Entry {
    key: Blob,
    length: usize,
}

impl Model for Entry {
    ghost use Rattle.std.specs.Prelude.{ℕ, List};

    ghost Value = { List ℕ × ℕ };

    ghost view = { λ e. (e.key, e.length) };
}

/// The keys, each with the length at its place. Refuses for want of memory alone.
pub fn read_entries(alloc: Global, keys: &[u8], lengths: &[usize]) -> Result<Vec<Entry>, AllocError>
    requires { length keys.now ≡ THE_KEY_SIZE * length lengths.now }
    ensures { IfOk result (λ entries. entries.items ≡ entries_at lengths.now keys.now) }
{
    let mut entries = Vec::new(alloc);
    let mut keys_left = keys;
    for length in lengths {
        let (key, others) = keys_left.split_at(KEY_SIZE);
        push_entry(alloc, &mut entries, key, *length)?;
        keys_left = others;
    }
    Ok(entries)
}

/// Adds a key with a length. Refuses for want of memory alone.
fn push_entry(
    alloc: Global,
    entries: &mut Vec<Entry>,
    key: &[u8],
    length: usize,
) -> Result<(), AllocError>
    ensures { OnOk result (entries.new.items ≡ entries.old.items ++ (key.now, length) ∷ []) }
{
    let key = Blob::from_slice(alloc, key)?;
    entries.push(Entry { key, length })?;
    Ok(())
}

/// Refuses a key that hasn't its form, a length that no signature has, or a key that stands twice: the first of these kinds, and
/// of its kind the first.
pub fn check_entries(entries: &[Entry]) -> Result<(), PlanFault>
    requires { length entries.now < 2 ^ 32 }
    ensures { Reads (first (entry_refusals entries.now)) (λ unit. unit) tt result }
{
    check_forms(entries)?;
    check_lengths(entries)?;
    check_repeated(entries)
}

/// Refuses the first key that hasn't its form.
fn check_forms(entries: &[Entry]) -> Result<(), PlanFault>
    requires { length entries.now < 2 ^ 32 }
    ensures { Reads (first_refused (λ entry. the_is_key entry.0) PlanFault.KeyForm entries.now) (λ unit. unit) tt result }
{
    let mut place = 0;
    for entry in entries {
        if !is_key(entry.key.as_slice()) {
            return Err(PlanFault::KeyForm(place));
        }
        place += 1;
    }
    Ok(())
}

/// Refuses the first length that no signature has.
fn check_lengths(entries: &[Entry]) -> Result<(), PlanFault>
    requires { length entries.now < 2 ^ 32 }
    ensures { Reads (first_refused (λ entry. the_is_signature_size entry.1) PlanFault.Length entries.now) (λ unit. unit) tt result }
{
    let mut place = 0;
    for entry in entries {
        if !is_signature_size(entry.length) {
            return Err(PlanFault::Length(place));
        }
        place += 1;
    }
    Ok(())
}

/// Refuses the first key that stands earlier too.
fn check_repeated(entries: &[Entry]) -> Result<(), PlanFault>
    requires { length entries.now < 2 ^ 32 }
    ensures { Reads (repeated PlanFault.RepeatedKey entries.now) (λ unit. unit) tt result }
{
    for i in 0..entries.len() {
        if holds_key_of(&entries[..i], &entries[i]) {
            return Err(PlanFault::RepeatedKey(i as u32));
        }
    }
    Ok(())
}

/// Whether an entry has the key of this one.
fn holds_key_of(entries: &[Entry], wanted: &Entry) -> bool
    ensures { result ≡ list_any (λ entry. bytes_eq wanted.now.0 entry.0) entries.now }
{
    for entry in entries {
        if wanted.key.as_slice() == entry.key.as_slice() {
            return true;
        }
    }
    false
}

/// The table of entries that aren't refused. Refuses for want of memory alone.
pub fn table_of(alloc: Global, entries: &[Entry]) -> Result<KeyLengths, AllocError>
    ensures table { IfOk result (λ table. table ≡ entries.now) }
    ensures keys { IfOk result (λ table. All (λ entry. IsKey entry.0) table) }
{
    let mut table = Vec::new(alloc);
    for entry in entries {
        let Some(known) = key_length(entry) else {
            return Err(AllocError);
        };
        table.push(known)?;
    }
    Ok(KeyLengths::from_vec(table))
}

/// An entry, where it has a key and a length of less than 256.
fn key_length(entry: &Entry) -> Option<KeyLength>
    ensures entry { IfSome result (λ known. known ≡ entry.now) }
    ensures key { IfSome result (λ known. IsKey known.0) }
{
    let key = Key::from_bytes(entry.key.as_slice())?;
    let length = u8::try_from(entry.length).ok()?;
    // Its clause tells what a key always is.
    let _bytes = key.as_bytes();
    Some(KeyLength { key, length })
}
