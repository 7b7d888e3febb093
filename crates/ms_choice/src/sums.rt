//! Differences of numbers, and their sums.
ghost use Rattle.std.specs.Prelude.{◌≡◌, ◌+◌, ◌<◌, ◌≤◌, ◌^◌, pos, ◌-ℤ◌, length, All, IsPermutation, IsSortedByKey};
ghost use Rattle.std.specs.Ordering.{int_cmp};
ghost use borrow.Author.Differences.{up, down};
ghost use Rattle.ms_choice.specs.Numbers.{number_in, difference, IsSmall, IsLightSlot, IsLightNumbers};
ghost use Rattle.ms_choice.specs.Sums.{total, IsGain};
ghost use Rattle.ms_choice.specs.Tally.{MOST_CHILDREN};
ghost use Rattle.ms_choice.specs.declared.children.Number.{Number as Which};

use crate::children::{Number, Numbers};
use crate::slot::Slot;

/// How much more the one is.
pub fn apart(more: u64, less: u64) -> i64
    requires more { more < 2 ^ 32 }
    requires less { less < 2 ^ 32 }
    ensures difference { result ≡ (pos more -ℤ pos less) }
    ensures small { IsSmall result }
{
    more as i64 - less as i64
}

/// What a slot holds of a free child.
pub fn slot_of(sat: &Numbers, dsat: &Numbers, place: u32) -> Slot
    requires sat { IsLightNumbers sat.now }
    requires dsat { IsLightNumbers dsat.now }
    ensures light { IsLightSlot result }
    ensures differences { (n : Which) → difference n result ≡ (pos (number_in n sat.now) -ℤ pos (number_in n dsat.now)) }
    ensures place { result.place ≡ place }
{
    Slot {
        first: apart(sat.first, dsat.first),
        place,
        second: apart(sat.second, dsat.second),
        third: apart(sat.third, dsat.third),
    }
}

impl Number {
    /// The difference that a slot has in this number.
    fn of(self, slot: &Slot) -> i64
        ensures { result ≡ difference self slot.now }
    {
        match self {
            Number::First => slot.first,
            Number::Second => slot.second,
            Number::Third => slot.third,
        }
    }
}

/// The sum of all differences in this number.
pub fn sum_of(slots: &[Slot], number: Number) -> i64
    requires few { length slots.now ≤ MOST_CHILDREN }
    requires light { All IsLightSlot slots.now }
    ensures sum { up result + total (λ s. down (difference number s)) slots.now ≡ down result + total (λ s. up (difference number s)) slots.now }
    ensures low { down result ≤ up result + 2 ^ 50 }
    ensures high { up result ≤ down result + 2 ^ 50 }
{
    let mut sum = 0;
    for slot in slots {
        sum += number.of(slot);
    }
    sum
}

fn sort_by(slots: &mut [Slot], number: Number)
    ensures permutation { IsPermutation slots.old slots.new }
    ensures sorted { IsSortedByKey (difference number) int_cmp slots.new }
{
    slots.sort_unstable_by_key(|slot| number.of(slot));
}

/// The sum of the greatest `count` differences in this number. It sorts the slots.
pub fn gain(slots: &mut [Slot], count: usize, number: Number) -> i64
    requires few { length slots.old ≤ MOST_CHILDREN }
    requires light { All IsLightSlot slots.old }
    requires enough { count ≤ length slots.old }
    ensures permutation { IsPermutation slots.old slots.new }
    ensures gain { IsGain (difference number) slots.old count result }
    ensures low { down result ≤ up result + 2 ^ 50 }
    ensures high { up result ≤ down result + 2 ^ 50 }
{
    sort_by(slots, number);
    let left_out = slots.len() - count;
    sum_of(&slots[left_out..], number)
}

/// `base + gain`, which isn't below zero.
pub fn raised(base: u64, gain: i64) -> u64
    requires base { base ≤ 2 ^ 50 }
    requires low { down gain ≤ up gain + base }
    requires high { up gain ≤ down gain + 2 ^ 50 }
    ensures { result + down gain ≡ base + up gain }
{
    (base as i64 + gain) as u64
}
