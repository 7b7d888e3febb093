//! Which children a choice satisfies.
ghost use Rattle.std.specs.Prelude.{◌≡◌};
ghost use Rattle.ms_choice.specs.Numbers.{IsLight};
ghost use Rattle.ms_choice.specs.Marks.{is_within, takes};

use crate::children::Costs;
use crate::slot::Slot;
use crate::sums::apart;

/// A lightest choice of so many children: its weight, and the last of the free children that it satisfies,
/// in the order of their slots.
#[derive(Clone, Copy)]
pub struct Choice {
    /// Its weight.
    pub weight: u64,
    /// That last one; `None` where no free child is satisfied.
    pub last: Option<Slot>,
}

impl Choice {
    /// Whether the choice satisfies this child, which stands at this place. Weights are below 2^32.
    pub fn is_taken(&self, child: &Costs, place: u32) -> bool
        requires { IsLight child.now }
        ensures { result ≡ takes self.now.last place child.now.sat child.now.dsat }
    {
        match (child.sat, child.dsat) {
            (Some(sat), Some(dsat)) => self.is_within(apart(sat, dsat), place),
            (Some(_), None) => true,
            (None, _) => false,
        }
    }

    /// Whether a free child with this difference stands at or before the last one that is satisfied.
    fn is_within(&self, difference: i64, place: u32) -> bool
        ensures { result ≡ is_within self.now.last difference place }
    {
        match self.last {
            Some(last) => {
                difference < last.first || (difference == last.first && place <= last.place)
            }
            None => false,
        }
    }
}
