//! Walks over the pairs of a map in bytes that hold several PSBTs.

ghost use Rattle.std.specs.Prelude.{◌≡◌, ◌^◌, ◌<◌, ◌≤◌, ◌++◌, length, map, OnOk, IfOk};
ghost use Rattle.std.specs.List.{AllByRecursion};
ghost use Rattle.ms_combine.specs.Scaffolding.Earliest.{earliest_text};
ghost use Rattle.ms_combine.specs.Scaffolding.Order.{IsOrder, StandsIn};
ghost use Rattle.ms_combine.specs.Scaffolding.Walk.{places_from, behind_from, marked_at};

use crate::keys::{Marked, is_first, with_mark};
use crate::pairs::{next_place, pair_at};
use std::alloc::AllocError;

/// How many pairs the map that begins at a place has.
pub fn count_pairs(bytes: &[u8], from: usize) -> usize
    requires room { length bytes.now < 2 ^ 32 }
    requires from { from ≤ length bytes.now }
    ensures { result ≡ length (places_from bytes.now (length bytes.now) from) }
{
    let mut count = 0;
    let mut at = from;
    'pairs: while let Some(next) = next_place(bytes, at) {
        count += 1;
        at = next;
    }
    count
}

/// Adds the places of the pairs of the map that begins at one, each with the mark of its key.
pub fn push_places(bytes: &[u8], from: usize, order: &mut Vec<Marked>) -> Result<(), AllocError>
    requires room { length bytes.now < 2 ^ 32 }
    requires from { from ≤ length bytes.now }
    ensures { OnOk result (order.new.items ≡ order.old.items ++ map (marked_at bytes.now) (places_from bytes.now (length bytes.now) from)) }
{
    let mut at = from;
    'pairs: while let Some(next) = next_place(bytes, at) {
        order.push(with_mark(bytes, at as u32))?;
        at = next;
    }
    Ok(())
}

/// Adds those pairs of the map that begins at a place whose places are the first with their keys in an order, and gives the place
/// behind the map.
pub fn push_pairs(
    bytes: &[u8],
    order: &[Marked],
    from: usize,
    out: &mut Vec<u8>,
) -> Result<usize, AllocError>
    requires room { length bytes.now < 2 ^ 32 }
    requires from { from ≤ length bytes.now }
    requires order { IsOrder bytes.now order.now }
    requires stand { AllByRecursion (StandsIn order.now) (places_from bytes.now (length bytes.now) from) }
    ensures pairs { OnOk result (out.new.items ≡ out.old.items ++ earliest_text bytes.now order.now (places_from bytes.now (length bytes.now) from)) }
    ensures behind { IfOk result (λ behind. behind ≡ behind_from bytes.now (length bytes.now) from) }
{
    let mut at = from;
    'pairs: while let Some(next) = next_place(bytes, at) {
        if is_first(bytes, order, at as u32) {
            out.extend_from_slice(pair_at(bytes, at))?;
        }
        at = next;
    }
    Ok((at + 1).min(bytes.len()))
}
