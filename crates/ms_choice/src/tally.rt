//! Children, counted in one after the other, and the choices among them.
ghost use Rattle.std.specs.Prelude.{◌≡◌, ◌+◌, ◌<◌, ◌≤◌, ◌⊎◌, ◌++◌, [], ◌∷◌, List, length, IfSome, None};
ghost use Rattle.std.specs.Option.{option_map};
ghost use Rattle.ms_choice.specs.Choice.{lightest, greatest};
ghost use Rattle.ms_choice.specs.Numbers.{number_in, costs_in, IsLight, IsLightChild};
ghost use Rattle.ms_choice.specs.Marks.{picked};
ghost use Rattle.ms_choice.specs.Tally.{MOST_CHILDREN, Fits, Tells};
ghost use Rattle.ms_choice.specs.declared.slot.Slot as slot;
ghost use Rattle.ms_choice.specs.declared.children.Costs as costs;
ghost use Rattle.ms_choice.specs.declared.children.Number.{Number as Which};
ghost use Rattle.ms_choice.specs.declared.children.Number.TheVariants.{First};

use crate::children::{Child, Costs, Number, Numbers};
use crate::choice::Choice;
use crate::kinds::KindCounts;
use crate::slot::Slot;
use crate::sums::{gain, raised, slot_of, sum_of};

/// Children, counted in one after the other. The slots hold the differences of those that can be satisfied
/// and dissatisfied, the free ones; `base` is what is taken where none of these is satisfied. A forced
/// child can only be satisfied, and a stuck one neither. `place` is the number of all.
#[derive(Drop)]
pub struct Tally {
    /// What is taken where no free child is satisfied.
    pub base: Numbers,
    /// How many can only be satisfied.
    pub forced: u64,
    /// How many can be neither.
    pub stuck: u64,
    /// How many can be both: so many slots are written.
    pub free: usize,
    /// How many there are in all.
    pub place: u32,
}

impl Tally {
    /// No children.
    pub fn new() -> Tally
        ensures fits { (slots : List slot.Slot) → Fits result slots }
        ensures told { (n : Which) (slots : List slot.Slot) → Tells n [] result slots }
        ensures free { result.free ≡ 0 }
        ensures place { result.place ≡ 0 }
    {
        Tally {
            base: Numbers::NOTHING,
            forced: 0,
            stuck: 0,
            free: 0,
            place: 0,
        }
    }

    /// Counts a further child in. It writes at most the slot behind those of the free children, which has to
    /// be there. Numbers are below 2^32, and there are at most 2^17 children.
    pub fn add(&mut self, slots: &mut [Slot], child: &Child)
        requires fits { Fits self.old slots.old }
        requires room { self.old.free < length slots.old }
        requires few { self.old.place < MOST_CHILDREN }
        requires light { IsLightChild child.now }
        ensures fits { Fits self.new slots.new }
        ensures told { (n : Which) (cs : List costs.Costs) → Tells n cs self.old slots.old → Tells n (cs ++ costs_in n child.now ∷ []) self.new slots.new }
        ensures free { self.new.free ≤ self.old.free + 1 }
        ensures place { self.new.place ≡ self.old.place + 1 }
    {
        let place = self.place;
        self.place += 1;
        match (child.sat, child.dsat) {
            (Some(sat), Some(dsat)) => {
                slots[self.free] = slot_of(&sat, &dsat, place);
                self.free += 1;
                self.base = self.base.plus(dsat);
            }
            (Some(sat), None) => {
                self.forced += 1;
                self.base = self.base.plus(sat);
            }
            (None, Some(dsat)) => {
                self.base = self.base.plus(dsat);
            }
            (None, None) => {
                self.stuck += 1;
            }
        }
    }

    /// Counts a further child in, which has one number.
    pub fn add_costs(&mut self, slots: &mut [Slot], child: &Costs)
        requires fits { Fits self.old slots.old }
        requires room { self.old.free < length slots.old }
        requires few { self.old.place < MOST_CHILDREN }
        requires light { IsLight child.now }
        ensures fits { Fits self.new slots.new }
        ensures told { (cs : List costs.Costs) → Tells First cs self.old slots.old → Tells First (cs ++ child.now ∷ []) self.new slots.new }
        ensures free { self.new.free ≤ self.old.free + 1 }
        ensures place { self.new.place ≡ self.old.place + 1 }
    {
        self.add(slots, &child.as_child());
    }

    /// How many free children have to be satisfied so that `count` children are, or `None` where they
    /// can't be.
    fn wanted(&self, count: u64) -> Option<usize>
        ensures none { result ≡ None → (0 < self.now.stuck) ⊎ ((count < self.now.forced) ⊎ (self.now.forced + self.now.free < count)) }
        ensures some { IfSome result (λ m. (self.now.stuck ≡ 0) × (self.now.forced + m ≡ count) × (m ≤ self.now.free)) }
    {
        let kinds = KindCounts {
            forced: self.forced,
            stuck: self.stuck,
            free: self.free as u64,
        };
        match kinds.wanted(count) {
            Some(wanted) => Some(wanted as usize),
            None => None,
        }
    }

    /// What it takes to dissatisfy all children, or `None` where that can't be.
    pub fn none_of(&self) -> Option<Numbers>
        ensures greatest { (n : Which) (cs : List costs.Costs) (slots : List slot.Slot) → Tells n cs self.now slots → option_map (number_in n) result ≡ greatest cs 0 }
        ensures least { (n : Which) (cs : List costs.Costs) (slots : List slot.Slot) → Tells n cs self.now slots → option_map (number_in n) result ≡ option_map (λ pick. pick.0) (lightest cs 0) }
    {
        match self.wanted(0) {
            Some(_) => Some(self.base),
            None => None,
        }
    }

    /// What it takes at most, in each number, to satisfy `count` of the children and to dissatisfy the
    /// others, or `None` where that can't be. It sorts the slots.
    pub fn greatest_of(&self, count: u64, slots: &mut [Slot]) -> Option<Numbers>
        requires fits { Fits self.now slots.old }
        requires told { (n : Which) → (cs : List costs.Costs) × Tells n cs self.now slots.old }
        ensures { (n : Which) (cs : List costs.Costs) → Tells n cs self.now slots.old → option_map (number_in n) result ≡ greatest cs count }
    {
        let Some(wanted) = self.wanted(count) else {
            return None;
        };
        let free = &mut slots[..self.free];
        let first = gain(free, wanted, Number::First);
        let second = gain(free, wanted, Number::Second);
        let third = gain(free, wanted, Number::Third);
        Some(Numbers {
            first: raised(self.base.first, first),
            second: raised(self.base.second, second),
            third: raised(self.base.third, third),
        })
    }

    /// The choice that satisfies `count` of the children, dissatisfies the others, and takes least by the
    /// first number; of several the first one. `None` where there is none. It sorts the slots.
    pub fn lightest_of(&self, count: u64, slots: &mut [Slot]) -> Option<Choice>
        requires fits { Fits self.now slots.old }
        requires told { (cs : List costs.Costs) × Tells First cs self.now slots.old }
        ensures { (cs : List costs.Costs) → Tells First cs self.now slots.old → picked cs result ≡ lightest cs count }
    {
        let Some(wanted) = self.wanted(count) else {
            return None;
        };
        let free = &mut slots[..self.free];
        free.sort_unstable();
        let taken = &free[..wanted];
        Some(Choice {
            weight: raised(self.base.first, sum_of(taken, Number::First)),
            last: taken.last().copied(),
        })
    }
}
