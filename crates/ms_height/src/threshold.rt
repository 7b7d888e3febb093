//! How high so many of the children of a threshold go, satisfied with the others dissatisfied.
ghost use Rattle.std.specs.Prelude.{◌≡◌, ℕ, ◌+◌, ◌*◌, ◌<◌, ◌≤◌, Some, All, length};
ghost use Rattle.def_tree.specs.InRange.{MOST_MEASURE};
ghost use Rattle.ms_height.specs.Scaffolding.Chosen as model;
ghost use Rattle.ms_height.specs.Scaffolding.Chosen.{bounded, free, stuck};
ghost use Rattle.ms_height.specs.Scaffolding.Kept.{heights_in, IsFitting};
ghost use Rattle.ms_height.specs.Scaffolding.Low.{IsLowHeights};

use crate::choice::Choice;
use crate::kept::child_at;
use crate::tally::{Bounds, tally_of};
use def_height::Highest;
use ms_choice::Slot;

/// The greatest items and height of `count` of the children satisfied and the others dissatisfied. It writes as
/// many slots as a child takes items at most, twice.
pub fn chosen(count: u64, sats: &[Slot], dsats: &[Slot], room: &mut [Slot]) -> Option<Highest>
    requires alike { length dsats.now ≡ length sats.now }
    requires few { length sats.now ≤ MOST_MEASURE }
    requires low { All IsLowHeights (heights_in sats.now dsats.now) }
    requires room { (slots : ℕ) × (0 < slots) × (2 * slots ≤ length room.old) × All (IsFitting slots) (heights_in sats.now dsats.now) }
    ensures { result ≡ model.chosen 1 (heights_in sats.now dsats.now) count }
{
    let tally = tally_of(sats, dsats);
    let Some(bounds) = tally.bounds(count) else {
        return None;
    };
    let size = tally.most_items as usize + 1;
    let (pluses, rest) = room.split_at_mut(size);
    Some(chosen_within(&bounds, sats, dsats, pluses, &mut rest[..size]))
}

/// The greatest items and height of at most so many free children satisfied, and at most so many dissatisfied.
fn chosen_within(
    bounds: &Bounds,
    sats: &[Slot],
    dsats: &[Slot],
    pluses: &mut [Slot],
    minuses: &mut [Slot],
) -> Highest
    requires alike { length dsats.now ≡ length sats.now }
    requires few { length sats.now ≤ MOST_MEASURE }
    requires low { All IsLowHeights (heights_in sats.now dsats.now) }
    requires pluses { 0 < length pluses.old }
    requires minuses { length minuses.old ≡ length pluses.old }
    requires fits { All (IsFitting (length pluses.old)) (heights_in sats.now dsats.now) }
    requires fine { stuck (heights_in sats.now dsats.now) ≡ 0 }
    requires all { bounds.now.satisfied + bounds.now.dissatisfied ≡ free (heights_in sats.now dsats.now) }
    ensures { bounded 1 (heights_in sats.now dsats.now) bounds.now.satisfied bounds.now.dissatisfied ≡ Some result }
{
    let mut choice = Choice::new(bounds.satisfied, bounds.dissatisfied, pluses, minuses);
    let mut index = sats.len();
    while index > 0 {
        index -= 1;
        let left = if index == 0 { 1 } else { 0 };
        choice.add(left, &child_at(index, sats, dsats), pluses, minuses);
    }
    Highest {
        items: choice.items(),
        height: choice.best,
    }
}
