//! The children of a threshold, counted.
ghost use Rattle.std.specs.Prelude.{◌≡◌, ℕ, ◌+◌, ◌<◌, ◌≤◌, ◌⊎◌, List, length, get_or, IfSome};
ghost use Rattle.def_tree.specs.InRange.{MOST_MEASURE};
ghost use Rattle.ms_height.specs.declared.highest.Heights as found;
ghost use Rattle.ms_height.specs.Scaffolding.Kept.{heights_in};
ghost use Rattle.ms_height.specs.Scaffolding.Tally.{Counts};

use crate::highest::Heights;
use crate::kept::child_at;
use ms_choice::{KindCounts, Slot};

/// How many children there are of each kind. A free child can be satisfied and dissatisfied, a forced one only
/// satisfied, and a stuck one neither. `most_items` is the most items that one of them takes.
#[derive(Drop)]
pub struct Tally {
    /// Those that can only be satisfied.
    pub forced: u64,
    /// Those that can be both.
    pub free: u64,
    /// Those that can be neither.
    pub stuck: u64,
    /// The most items that one of them takes.
    pub most_items: u64,
}

/// How many of the free children are satisfied, and how many dissatisfied.
#[derive(Drop)]
pub struct Bounds {
    /// How many are satisfied.
    pub satisfied: u64,
    /// How many are dissatisfied.
    pub dissatisfied: u64,
}

impl Tally {
    /// Counts a further child in.
    fn add(&mut self, child: &Heights)
        requires few { (self.old.forced ≤ MOST_MEASURE) × (self.old.free ≤ MOST_MEASURE) × (self.old.stuck ≤ MOST_MEASURE) }
        ensures { (n : ℕ) (cs : List found.Heights) → n < length cs → child.now ≡ get_or cs n child.now → Counts self.old n cs → Counts self.new (n + 1) cs }
    {
        match (child.sat, child.dsat) {
            (Some(sat), Some(dsat)) => {
                self.free += 1;
                self.most_items = self.most_items.max(sat.items).max(dsat.items);
            }
            (Some(sat), None) => {
                self.forced += 1;
                self.most_items = self.most_items.max(sat.items);
            }
            (None, Some(dsat)) => self.most_items = self.most_items.max(dsat.items),
            (None, None) => self.stuck += 1,
        }
    }

    /// How many free children are satisfied and dissatisfied where `count` children are satisfied and the
    /// others dissatisfied, or `None` where they can't be.
    pub fn bounds(&self, count: u64) -> Option<Bounds>
        ensures none { result ≡ None → (0 < self.now.stuck) ⊎ ((count < self.now.forced) ⊎ (self.now.forced + self.now.free < count)) }
        ensures some { IfSome result (λ b. (self.now.stuck ≡ 0) × (count ≡ self.now.forced + b.satisfied) × (b.satisfied + b.dissatisfied ≡ self.now.free)) }
    {
        let kinds = KindCounts {
            forced: self.forced,
            stuck: self.stuck,
            free: self.free,
        };
        match kinds.wanted(count) {
            Some(satisfied) => Some(Bounds {
                satisfied,
                dissatisfied: self.free - satisfied,
            }),
            None => None,
        }
    }
}

/// The tally of all children that are kept.
pub fn tally_of(sats: &[Slot], dsats: &[Slot]) -> Tally
    requires alike { length dsats.now ≡ length sats.now }
    requires few { length sats.now ≤ MOST_MEASURE }
    ensures { Counts result (length sats.now) (heights_in sats.now dsats.now) }
{
    let mut tally = Tally {
        forced: 0,
        free: 0,
        stuck: 0,
        most_items: 0,
    };
    for index in 0..sats.len() {
        tally.add(&child_at(index, sats, dsats));
    }
    tally
}
