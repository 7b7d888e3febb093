//! Maps of a PSBT: where they end, and the first place at which they are refused.

ghost use Rattle.std.specs.Prelude.{◌≡◌, ℕ, suc, ◌-◌, ◌^◌, ◌<◌, ◌≤◌, ◌++◌, length, Ok, IfOk};
ghost use Rattle.std.specs.List.Sorted.{IsStrictlyIncreasing};
ghost use Rattle.def_psbt.specs.Map.{Map, has_types};
ghost use Rattle.def_psbt.specs.Reading.{map_at, whole_map_at, maps_at};
ghost use Rattle.ms_psbt.specs.Scaffolding.Kinds.{forms_of, needed_in, rules_of};
ghost use Rattle.ms_psbt.specs.Seen.{ReadsOr};
ghost use Rattle.ms_psbt.specs.Scaffolding.Repeats.{AreMarked, places_of};
ghost use Rattle.ms_psbt.specs.Scaffolding.Walks.{step_at, walk_from, walk_of, end_of, starts_from, IsStepWithin};

use crate::listed::{MapKind, shape_fault};
use crate::pairs::{pair_at, size_at};
use crate::repeats::{Keys, Marked, first_repeat};
use crate::stop::ReadStop;
use crate::values::has_both;
use def_psbt::{PsbtFault, PsbtVersion, Refusal, types};
use std::alloc::{AllocError, Global};

/// What follows a pair.
enum Step {
    /// The map has ended before this place.
    End(usize),
    /// A pair that was read whole, with nothing wrong by its form, stands at the one place and ends before the other.
    Pair(Marked, usize),
    /// A pair that was read whole, at this place, has a fault.
    Fault(Marked, Refusal),
    /// No pair was read whole.
    Cut(Refusal),
}

fn next_step(alloc: Global, kind: MapKind, psbt: &[u8], at: usize) -> Result<Step, AllocError>
    requires at { at ≤ length psbt.now }
    requires room { length psbt.now < 2 ^ 32 }
    ensures step { IfOk result (λ step. step ≡ step_at (forms_of kind) psbt.now at) }
    ensures within { IfOk result (λ step. IsStepWithin at (length psbt.now) step) }
{
    let (size, next) = match size_at(psbt, at) {
        Ok(read) => read,
        Err(refusal) => return Ok(Step::Cut(refusal)),
    };
    if size == 0 {
        return Ok(Step::End(next));
    }
    let (pair, next) = match pair_at(psbt, at) {
        Ok(read) => read,
        Err(refusal) => return Ok(Step::Cut(refusal)),
    };
    let place = Marked::new(pair.key(), at);
    match shape_fault(alloc, kind, &pair)? {
        Some(fault) => Ok(Step::Fault(place, Refusal::At(fault, at))),
        None => Ok(Step::Pair(place, next)),
    }
}

/// Walks over the pairs from a place on, to the end of their map, and puts the places of those that were read whole in the place
/// of what the list held. The outcome is the place behind the map, or the first refusal, keys that stand twice left aside.
fn walk(
    alloc: Global,
    kind: MapKind,
    psbt: &[u8],
    from: usize,
    places: &mut Vec<Marked>,
) -> Result<Result<usize, Refusal>, AllocError>
    requires from { from ≤ length psbt.now }
    requires room { length psbt.now < 2 ^ 32 }
    ensures walk { IfOk result (λ outcome. walk_of (places_of places.new.items) outcome ≡ walk_from (forms_of kind) psbt.now (suc (length psbt.now)) from) }
    ensures up { IfOk result (λ outcome. IsStrictlyIncreasing (places_of places.new.items)) }
    ensures marks { IfOk result (λ outcome. AreMarked Keys.Pairs psbt.now places.new.items) }
    ensures within { IfOk result (λ outcome. IfOk outcome (λ end. end ≤ length psbt.now)) }
{
    places.clear();
    let mut at = from;
    loop {
        match next_step(alloc, kind, psbt, at)? {
            Step::End(next) => return Ok(Ok(next)),
            Step::Cut(refusal) => return Ok(Err(refusal)),
            Step::Fault(place, refusal) => {
                places.push(place)?;
                return Ok(Err(refusal));
            }
            Step::Pair(place, next) => {
                places.push(place)?;
                at = next;
            }
        }
    }
}

/// The place behind the map that begins at a place, or its first refusal. It demands that the place lies within the bytes, or
/// right behind them, and that there are less than 2^32 of them. The list is lent for the places of the map's pairs.
pub fn map_end(
    alloc: Global,
    kind: MapKind,
    psbt: &[u8],
    at: usize,
    places: &mut Vec<Marked>,
) -> Result<usize, ReadStop>
    requires at { at ≤ length psbt.now }
    requires room { length psbt.now < 2 ^ 32 }
    ensures reading { ReadsOr (λ end. end) result (end_of (map_at (forms_of kind) psbt.now at)) }
    ensures within { IfOk result (λ end. end ≤ length psbt.now) }
{
    let outcome = walk(alloc, kind, psbt, at, places)?;
    match first_repeat(Keys::Pairs, psbt, places) {
        Some(place) => Err(ReadStop::Refused(Refusal::At(PsbtFault::RepeatedKey, place as usize))),
        None => Ok(outcome?),
    }
}

/// Whether the types that have to stand in maps of a kind stand in the one that begins at a place.
fn has_needed(kind: MapKind, psbt: &[u8], from: usize) -> bool
    ensures { (map : Map × ℕ) → map_at (forms_of kind) psbt.now from ≡ Ok map → result ≡ has_types (needed_in kind) map.0 }
{
    match kind {
        MapKind::Input(PsbtVersion::Two) => has_both(
            psbt,
            from,
            types::IN_PREVIOUS_TXID,
            types::IN_OUTPUT_INDEX,
        ),
        MapKind::Output(PsbtVersion::Two) => has_both(
            psbt,
            from,
            types::OUT_AMOUNT,
            types::OUT_SCRIPT,
        ),
        _ => true,
    }
}

/// The place behind the map that begins at a place, where the types stand that have to, or its first refusal.
fn whole_map_end(
    alloc: Global,
    kind: MapKind,
    psbt: &[u8],
    at: usize,
    places: &mut Vec<Marked>,
) -> Result<usize, ReadStop>
    requires at { at ≤ length psbt.now }
    requires room { length psbt.now < 2 ^ 32 }
    ensures reading { ReadsOr (λ end. end) result (end_of (whole_map_at (rules_of kind) psbt.now at)) }
    ensures within { IfOk result (λ end. end ≤ length psbt.now) }
{
    let end = map_end(alloc, kind, psbt, at, places)?;
    if has_needed(kind, psbt, at) {
        Ok(end)
    } else {
        Err(ReadStop::Refused(no_transaction(end)))
    }
}

/// That a type doesn't stand in a map that has to, at the byte before its end, which ends it.
pub fn no_transaction(end: usize) -> Refusal
    ensures { result ≡ Refusal.At PsbtFault.NoTransaction (end - 1) }
{
    Refusal::At(PsbtFault::NoTransaction, end.saturating_sub(1))
}

/// The place behind so many maps from a place on, or their first refusal; the place of each map is added.
pub fn maps_end(
    alloc: Global,
    kind: MapKind,
    psbt: &[u8],
    count: u64,
    from: usize,
    starts: &mut Vec<u32>,
) -> Result<usize, ReadStop>
    requires from { from ≤ length psbt.now }
    requires room { length psbt.now < 2 ^ 32 }
    ensures reading { ReadsOr (λ end. end) result (end_of (maps_at (rules_of kind) psbt.now count from)) }
    ensures starts { IfOk result (λ end. starts.new.items ≡ starts.old.items ++ starts_from (rules_of kind) psbt.now count from) }
    ensures within { IfOk result (λ end. end ≤ length psbt.now) }
{
    let mut places = Vec::new(alloc);
    let mut at = from;
    for _ in 0..count {
        starts.push(at as u32)?;
        at = whole_map_end(alloc, kind, psbt, at, &mut places)?;
    }
    Ok(at)
}
