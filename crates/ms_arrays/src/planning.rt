//! What a plan is made by, in arrays.
ghost use Rattle.std.specs.Prelude.{◌≡◌, ◌≤◌, [], length, IfOk, OnOk, None};
ghost use Rattle.def_plan.specs.Lengths.{AreLengths, MOST_KEYS as THE_MOST_KEYS};
ghost use Rattle.ms_assets.specs.Parts.{first, IsOr, Reads};
ghost use Rattle.ms_arrays.specs.Pieces.{preimages_in};
ghost use Rattle.ms_arrays.specs.ArrayPlan.{plan_shape_refusals, entry_refusals, plan_of_arrays};

use crate::cutting::{KEY_SIZE, PREIMAGE_SIZE, add_preimages};
use crate::entries::{Entry, check_entries, read_entries, table_of};
use ms_assets::{Assets, MOST_PREIMAGES};
use ms_oracle::Locks;
use ms_plan_file::{MOST_KEYS, PlanFault, PlanFile, PlanMember};
use std::alloc::{AllocError, Global};
use std::marker::Model;

/// What a plan is made by, in arrays that were lent: the values of the locks; keys that can sign, of 33 bytes, one after the
/// other, with how many bytes the signature of each is estimated to have; and preimages of 32 bytes, one after the other.
/// Contracts see what they give: what a plan file gives, or why they are refused.
#[derive(Drop)]
pub struct PlanArrays<'a> {
    locks: Locks,
    keys: &'a [u8],
    lengths: &'a [usize],
    preimages: &'a [u8],
}

impl<'a> Model for PlanArrays<'a> {
    ghost use Rattle.std.specs.Prelude.{Result};
    ghost use Rattle.def_plan.specs.PlanFile.{PlanFile as Given};
    ghost use Rattle.def_plan.specs.declared.PlanFault.{PlanFault as Fault};
    ghost use Rattle.ms_arrays.specs.ArrayPlan.{plan_of_arrays};

    ghost Value = { Result Given Fault };

    ghost view = { λ a. plan_of_arrays a.locks a.keys.now a.lengths.now a.preimages.now };
}

impl<'a> PlanArrays<'a> {
    /// These. Takes no memory.
    pub fn new(
        locks: Locks,
        keys: &'a [u8],
        lengths: &'a [usize],
        preimages: &'a [u8],
    ) -> PlanArrays<'a>
        ensures { result ≡ plan_of_arrays locks keys.now lengths.now preimages.now }
    {
        PlanArrays {
            locks,
            keys,
            lengths,
            preimages,
        }
    }

    /// What they give. It has no signature, and lengths as `Estimate::new` asks for.
    ///
    /// They are refused, in this order, by the shape of the keys where there aren't 33 bytes of these for each length; the shape of
    /// the preimages where these aren't 32 bytes each; over 256 of either; the first key that hasn't its form; the first length that
    /// isn't 1 to 73; and the first key that stands there twice. Want of memory, `Memory`, may come in place of any answer but those
    /// of shape and count.
    pub fn plan_file(&self, alloc: Global) -> Result<PlanFile, PlanFault>
        ensures file { IsOr PlanFault.Memory self.now result }
        ensures unsigned { IfOk result (λ file. file.assets.pairs ≡ []) }
        ensures lengths { IfOk result (λ file. AreLengths file.table) }
    {
        read(alloc, self.locks, self.keys, self.lengths, self.preimages)
    }
}

/// What a plan is made by with these values of the locks, and with what lies in arrays.
#[tactic(auto, using(crate::proofs::Steps::entries_length))]
fn read(
    alloc: Global,
    locks: Locks,
    keys: &[u8],
    lengths: &[usize],
    preimages: &[u8],
) -> Result<PlanFile, PlanFault>
    ensures file { IsOr PlanFault.Memory (plan_of_arrays locks keys.now lengths.now preimages.now) result }
    ensures unsigned { IfOk result (λ file. file.assets.pairs ≡ []) }
    ensures lengths { IfOk result (λ file. AreLengths file.table) }
{
    check_arrays(keys, lengths, preimages)?;
    let Ok(entries) = read_entries(alloc, keys, lengths) else {
        return Err(PlanFault::Memory);
    };
    check_entries(&entries)?;
    match file_of(alloc, locks, &entries, preimages) {
        Ok(file) => Ok(file),
        Err(AllocError) => Err(PlanFault::Memory),
    }
}

/// Refuses arrays that haven't a key for each length, or hold too much.
fn check_arrays(keys: &[u8], lengths: &[usize], preimages: &[u8]) -> Result<(), PlanFault>
    ensures refusal { Reads (first (plan_shape_refusals keys.now lengths.now preimages.now)) (λ unit. unit) tt result }
    ensures few { OnOk result (length lengths.now ≤ THE_MOST_KEYS) }
{
    if keys.len() % KEY_SIZE != 0 || keys.len() / KEY_SIZE != lengths.len() {
        return Err(PlanFault::Shape(PlanMember::Keys));
    }
    if preimages.len() % PREIMAGE_SIZE != 0 {
        return Err(PlanFault::Shape(PlanMember::Preimages));
    }
    if lengths.len() > MOST_KEYS {
        return Err(PlanFault::TooMany(PlanMember::Keys));
    }
    if preimages.len() / PREIMAGE_SIZE > MOST_PREIMAGES {
        return Err(PlanFault::TooMany(PlanMember::Preimages));
    }
    Ok(())
}

/// What a plan is made by, of these parts. Refuses for want of memory alone.
fn file_of(
    alloc: Global,
    locks: Locks,
    entries: &[Entry],
    preimages: &[u8],
) -> Result<PlanFile, AllocError>
    requires few { length entries.now ≤ THE_MOST_KEYS }
    requires passed { first (entry_refusals entries.now) ≡ None }
    ensures file { IfOk result (λ file. file ≡ record { assets = record { locks = locks; pairs = []; preimages = preimages_in preimages.now }; table = entries.now }) }
    ensures lengths { IfOk result (λ file. AreLengths file.table) }
{
    let mut assets = Assets::new(alloc, locks);
    add_preimages(&mut assets, preimages)?;
    let table = table_of(alloc, entries)?;
    Ok(PlanFile { assets, table })
}
