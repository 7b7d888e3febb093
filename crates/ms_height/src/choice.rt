//! The greatest choice of so many among the children of a threshold, from the last child to the first.
ghost use Rattle.std.specs.Prelude.{◌≡◌, ℕ, ◌+◌, ◌-◌, ◌<◌, ◌≤◌, ◌^◌, [], List, Some, None, length};
ghost use Rattle.def_tree.specs.InRange.{MOST_MEASURE};
ghost use Rattle.ms_height.specs.declared.highest.Heights as found;
ghost use Rattle.ms_choice.specs.declared.slot.Slot as slot;
ghost use Rattle.ms_height.specs.Scaffolding.Chosen.{stuck_by};
ghost use Rattle.ms_height.specs.Scaffolding.Choice.{IsChoice, IsOfSome, IsBehind, AddsFixed, AddsFree, AddsChild, items_of, reach};
ghost use Rattle.ms_height.specs.Scaffolding.Kept.{ItemsBelow};
ghost use Rattle.ms_height.specs.Scaffolding.Low.{IsLowHighest, IsLowHeights};

use crate::highest::Heights;
use crate::sums::Top;
use def_height::Highest;
use ms_choice::Slot;

/// A choice among children that were seen from the last one on: at most so many of the free ones are
/// satisfied, and at most so many dissatisfied. A free child can be satisfied and dissatisfied, and `base` is
/// what all take where each is what takes fewer items; `best` is the greatest height.
#[derive(Clone, Copy)]
pub struct Choice {
    /// The items that all take where each takes the fewer.
    pub base: u64,
    /// The greatest height so far.
    pub best: u64,
    /// What satisfied children take more than that.
    pub sats: Top,
    /// What dissatisfied children take more than that.
    pub dsats: Top,
}

impl Choice {
    /// Among no children.
    pub fn new(t: u64, u: u64, pluses: &mut [Slot], minuses: &mut [Slot]) -> Choice
        requires t { t ≤ MOST_MEASURE }
        requires u { u ≤ MOST_MEASURE }
        ensures { (left : ℕ) → IsChoice result pluses.new minuses.new t u left [] }
    {
        Choice {
            base: 0,
            best: 0,
            sats: Top::new(t, pluses),
            dsats: Top::new(u, minuses),
        }
    }

    /// The items at most.
    pub fn items(&self) -> u64
        requires told { IsOfSome self.now }
        ensures items { (ps ms : List slot.Slot) (t u left : ℕ) (cs : List found.Heights) → IsChoice self.now ps ms t u left cs → result ≡ items_of cs t u }
        ensures low { result ≤ 2 ^ 55 }
    {
        self.base + self.sats.sum() + self.dsats.sum()
    }

    /// The items at most where one fewer of the free children may be satisfied.
    fn items_beside_sat(&self) -> u64
        requires told { IsOfSome self.now }
        ensures items { (ps ms : List slot.Slot) (t u left : ℕ) (cs : List found.Heights) → IsChoice self.now ps ms t u left cs → result ≡ items_of cs (t - 1) u }
        ensures low { result ≤ 2 ^ 55 }
    {
        self.base + self.sats.sum_of_fewer() + self.dsats.sum()
    }

    /// The items at most where one fewer may be dissatisfied.
    fn items_beside_dsat(&self) -> u64
        requires told { IsOfSome self.now }
        ensures items { (ps ms : List slot.Slot) (t u left : ℕ) (cs : List found.Heights) → IsChoice self.now ps ms t u left cs → result ≡ items_of cs t (u - 1) }
        ensures low { result ≤ 2 ^ 55 }
    {
        self.base + self.sats.sum() + self.dsats.sum_of_fewer()
    }

    /// The greatest height while a further free child is run that is satisfied, or 0 where none may be.
    fn height_at_sat(&self, sat: &Highest) -> u64
        requires told { IsOfSome self.now }
        requires sat { IsLowHighest sat.now }
        ensures reach { (ps ms : List slot.Slot) (t u left : ℕ) (cs : List found.Heights) → IsChoice self.now ps ms t u left cs → result ≡ reach (λ n. sat.now.height + items_of cs n u) t }
        ensures low { result ≤ 2 ^ 56 }
    {
        if self.sats.count == 0 {
            return 0;
        }
        sat.height + self.items_beside_sat()
    }

    /// The same of one that is dissatisfied.
    fn height_at_dsat(&self, dsat: &Highest) -> u64
        requires told { IsOfSome self.now }
        requires dsat { IsLowHighest dsat.now }
        ensures reach { (ps ms : List slot.Slot) (t u left : ℕ) (cs : List found.Heights) → IsChoice self.now ps ms t u left cs → result ≡ reach (λ n. dsat.now.height + items_of cs t n) u }
        ensures low { result ≤ 2 ^ 56 }
    {
        if self.dsats.count == 0 {
            return 0;
        }
        dsat.height + self.items_beside_dsat()
    }

    /// A further free child, which stands before them.
    fn add_free(
        &mut self,
        left: u64,
        sat: &Highest,
        dsat: &Highest,
        pluses: &mut [Slot],
        minuses: &mut [Slot],
    )
        requires told { IsBehind self.old pluses.old minuses.old }
        requires left { left ≤ 1 }
        requires sat { IsLowHighest sat.now }
        requires dsat { IsLowHighest dsat.now }
        requires pluses { sat.now.items < length pluses.old }
        requires minuses { dsat.now.items < length minuses.old }
        ensures { AddsFree self.old pluses.old minuses.old self.new pluses.new minuses.new left (record { sat = Some sat.now; dsat = Some dsat.now }) }
    {
        let at_sat = self.height_at_sat(sat);
        let at_dsat = self.height_at_dsat(dsat);
        self.best = (left + self.best).max(at_sat).max(at_dsat);
        self.base += sat.items.min(dsat.items);
        self.sats.add(sat.items.saturating_sub(dsat.items), pluses);
        self.dsats
            .add(dsat.items.saturating_sub(sat.items), minuses);
    }

    /// A further child that can only be satisfied, or only dissatisfied, and takes this.
    fn add_fixed(&mut self, left: u64, fixed: &Highest, pluses: &mut [Slot], minuses: &mut [Slot])
        requires told { IsBehind self.old pluses.old minuses.old }
        requires left { left ≤ 1 }
        requires fixed { IsLowHighest fixed.now }
        requires pluses { 0 < length pluses.old }
        requires minuses { 0 < length minuses.old }
        ensures sat { AddsFixed self.old pluses.old minuses.old self.new pluses.new minuses.new left (record { sat = Some fixed.now; dsat = None }) }
        ensures dsat { AddsFixed self.old pluses.old minuses.old self.new pluses.new minuses.new left (record { sat = None; dsat = Some fixed.now }) }
    {
        self.best = (fixed.height + self.items()).max(left + self.best);
        self.base += fixed.items;
        self.sats.add(0, pluses);
        self.dsats.add(0, minuses);
    }

    /// A further child, which stands before them and leaves so many elements of those that it found.
    pub fn add(&mut self, left: u64, child: &Heights, pluses: &mut [Slot], minuses: &mut [Slot])
        requires told { IsBehind self.old pluses.old minuses.old }
        requires left { left ≤ 1 }
        requires low { IsLowHeights child.now }
        requires fine { stuck_by child.now.sat child.now.dsat ≡ 0 }
        requires some { (0 < length pluses.old) × (0 < length minuses.old) }
        requires sat { ItemsBelow (length pluses.old) child.now.sat }
        requires dsat { ItemsBelow (length minuses.old) child.now.dsat }
        ensures { AddsChild self.old pluses.old minuses.old self.new pluses.new minuses.new left child.now }
    {
        match (child.sat, child.dsat) {
            (Some(sat), Some(dsat)) => self.add_free(left, &sat, &dsat, pluses, minuses),
            (Some(sat), None) => self.add_fixed(left, &sat, pluses, minuses),
            (None, Some(dsat)) => self.add_fixed(left, &dsat, pluses, minuses),
            (None, None) => {}
        }
    }
}
