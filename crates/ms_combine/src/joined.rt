//! Maps of several PSBTs, put together.

ghost use Rattle.std.specs.Prelude.{◌≡◌, ◌^◌, ◌<◌, ◌≤◌, ◌++◌, ◌∷◌, [], List, All, length, map, IfOk};
ghost use Rattle.std.specs.List.{flat_map};
ghost use Rattle.std.specs.List.Sorted.{IsPermutation};
ghost use Rattle.def_psbt.specs.Map.{Map, map_text, magic};
ghost use Rattle.ms_combine.specs.Scaffolding.Earliest.{earliest_text, all_places};
ghost use Rattle.ms_combine.specs.Scaffolding.Order.{IsOrder};
ghost use Rattle.ms_combine.specs.Scaffolding.Rows.{AreRows, rows_joined, first_of};
ghost use Rattle.ms_combine.specs.Scaffolding.Walk.{behind_from, marked_at};

use crate::keys::{Marked, sort_places};
use crate::walks::{count_pairs, push_pairs, push_places};
use std::alloc::{AllocError, Global};

/// The PSBTs whose global maps begin at places, of which the first ends at a place, put together: the magic, and of each map the pairs
/// of all in their order, each where its key stands first. No value is copied but into what is given.
pub fn joined_text(
    alloc: Global,
    bytes: &[u8],
    end: usize,
    places: Vec<usize>,
) -> Result<Vec<u8>, AllocError>
    requires room { length bytes.now < 2 ^ 32 }
    requires end { end ≤ length bytes.now }
    requires inside { All (λ place. place ≤ length bytes.now) places.items }
    ensures { (row : List Map) (rows : List (List Map)) → AreRows bytes.now end places.items row rows → IfOk result (λ text. text.items ≡ magic ++ flat_map map_text (rows_joined row rows)) }
{
    let mut out = Vec::with_capacity(alloc, bytes.len())?;
    out.extend_from_slice(&[0x70, 0x73, 0x62, 0x74, 0xff])?;
    let mut places = places;
    'maps: while first_place(places.as_slice()) < end {
        places = join_map(alloc, bytes, places.as_slice(), &mut out)?;
    }
    Ok(out)
}

/// The first of some places; where there is none, one behind all.
fn first_place(places: &[usize]) -> usize
    ensures { result ≡ first_of places.now }
{
    match places.first() {
        Some(place) => *place,
        None => usize::MAX,
    }
}

/// Adds what the maps that begin at places are put together to, and gives the places behind them.
fn join_map(
    alloc: Global,
    bytes: &[u8],
    places: &[usize],
    out: &mut Vec<u8>,
) -> Result<Vec<usize>, AllocError>
    requires room { length bytes.now < 2 ^ 32 }
    requires inside { All (λ place. place ≤ length bytes.now) places.now }
    ensures pairs { IfOk result (λ behind. out.new.items ≡ out.old.items ++ (earliest_text bytes.now (map (marked_at bytes.now) (all_places bytes.now places.now))
        (all_places bytes.now places.now) ++ 0x00 ∷ [])) }
    ensures behind { IfOk result (λ behind. behind.items ≡ map (behind_from bytes.now (length bytes.now)) places.now) }
{
    let order = ordered_pairs(alloc, bytes, places)?;
    let mut behind = Vec::with_capacity(alloc, places.len())?;
    'maps: for place in places {
        behind.push(push_pairs(bytes, order.as_slice(), *place, out)?)?;
    }
    out.push(0x00)?;
    Ok(behind)
}

/// The places of all pairs of the maps that begin at places, in the order of their keys.
fn ordered_pairs(alloc: Global, bytes: &[u8], places: &[usize]) -> Result<Vec<Marked>, AllocError>
    requires room { length bytes.now < 2 ^ 32 }
    requires inside { All (λ place. place ≤ length bytes.now) places.now }
    ensures order { IfOk result (λ order. IsOrder bytes.now order.items) }
    ensures permutation { IfOk result (λ order. IsPermutation (map (marked_at bytes.now) (all_places bytes.now places.now)) order.items) }
{
    let mut order = Vec::with_capacity(alloc, count_all(bytes, places))?;
    'maps: for place in places {
        push_places(bytes, *place, &mut order)?;
    }
    sort_places(bytes, order.as_mut_slice());
    Ok(order)
}

/// How many pairs the maps that begin at places have, for which room is made.
fn count_all(bytes: &[u8], places: &[usize]) -> usize
    requires room { length bytes.now < 2 ^ 32 }
    requires inside { All (λ place. place ≤ length bytes.now) places.now }
{
    let mut count: usize = 0;
    'maps: for place in places {
        count = count.saturating_add(count_pairs(bytes, *place));
    }
    count
}
