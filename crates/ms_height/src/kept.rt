//! What is kept of the children of a threshold: a slot for each child's satisfactions, and one for its
//! dissatisfactions.
ghost use Rattle.std.specs.Prelude.{◌≡◌, ◌<◌, get_or, length};
ghost use Rattle.ms_height.specs.Scaffolding.Low.{IsStorable};
ghost use Rattle.ms_height.specs.Scaffolding.Kept.{kept_in, heights_in};

use crate::highest::Heights;
use def_height::Highest;
use ms_choice::Slot;

/// A slot that keeps what was found.
pub fn slot_of(found: Option<Highest>) -> Slot
    requires { IsStorable found }
    ensures { kept_in result ≡ found }
{
    match found {
        Some(found) => Slot {
            first: found.items as i64,
            second: found.height as i64,
            third: 0,
            place: 1,
        },
        None => Slot {
            first: 0,
            second: 0,
            third: 0,
            place: 0,
        },
    }
}

/// What a slot keeps.
fn found_in(slot: &Slot) -> Option<Highest>
    ensures { result ≡ kept_in slot.now }
{
    if slot.place == 0 {
        return None;
    }
    Some(Highest {
        items: slot.first.unsigned_abs(),
        height: slot.second.unsigned_abs(),
    })
}

/// What is kept of one child.
pub fn child_at(index: usize, sats: &[Slot], dsats: &[Slot]) -> Heights
    requires sat { index < length sats.now }
    requires dsat { index < length dsats.now }
    ensures { result ≡ get_or (heights_in sats.now dsats.now) index result }
{
    Heights {
        sat: found_in(&sats[index]),
        dsat: found_in(&dsats[index]),
    }
}
