//! What satisfactions and dissatisfactions take at most.
ghost use Rattle.std.specs.Prelude.{◌≡◌, ◌+◌, ◌<◌, ◌^◌};
ghost use Rattle.def_limits.specs.Formal as formal;
ghost use Rattle.def_limits.specs.Scaffolding.Most as most;
ghost use Rattle.std.specs.Option.{option_map};
ghost use Rattle.ms_choice.specs.Numbers.{number_in, costs_in, IsLightEach, IsLightChild};
ghost use Rattle.ms_choice.specs.declared.children.Number.{Number};
ghost use Rattle.ms_sane.specs.Scaffolding.Takes.{takes_of, taken, takes_at, costs_at, IsLightOption, IsLightMost};

use ms_choice::{Child, Numbers};

/// What a satisfaction or a dissatisfaction takes at most: stack items, their weight, and keys of the
/// `multi` fragments that are executed, each number by itself.
#[derive(Clone, Copy, Debug, PartialEq, Eq)]
pub struct Takes {
    /// Items of the stack.
    pub items: u64,
    /// The weight of these items in a witness, in bytes.
    pub weight: u64,
    /// Keys of executed `multi` fragments, which count as opcodes.
    pub keys: u64,
}

/// What the satisfactions and the dissatisfactions of a fragment take at most, where it has some.
#[derive(Clone, Copy, Debug, PartialEq, Eq)]
pub struct Most {
    /// Of the satisfactions; `None` where there is none.
    pub sat: Option<Takes>,
    /// Of the dissatisfactions; `None` where there is none.
    pub dsat: Option<Takes>,
}

impl Most {
    /// As a child of a choice, by items, weight and keys.
    pub fn as_child(&self) -> Child
        requires { IsLightMost self.now }
        ensures costs { (n : Number) → costs_in n result ≡ costs_at n (taken self.now.sat) (taken self.now.dsat) }
        ensures light { IsLightChild result }
    {
        Child {
            sat: numbers_of(self.sat),
            dsat: numbers_of(self.dsat),
        }
    }
}

/// Items, weight and keys as the numbers of a child.
fn numbers_of(takes: Option<Takes>) -> Option<Numbers>
    requires { IsLightOption takes }
    ensures numbers { (n : Number) → option_map (number_in n) result ≡ option_map (takes_at n) (taken takes) }
    ensures light { IsLightEach result }
{
    match takes {
        Some(takes) => Some(Numbers {
            first: takes.items,
            second: takes.weight,
            third: takes.keys,
        }),
        None => None,
    }
}

/// The items, the weight and the keys that these numbers are.
pub fn taken_of(numbers: Option<Numbers>) -> Option<Takes>
    ensures { (n : Number) → option_map (takes_at n) (taken result) ≡ option_map (number_in n) numbers }
{
    match numbers {
        Some(numbers) => Some(Takes {
            items: numbers.first,
            weight: numbers.second,
            keys: numbers.third,
        }),
        None => None,
    }
}

impl Takes {
    /// No item.
    pub const NOTHING: Takes = Takes {
        items: 0,
        weight: 0,
        keys: 0,
    };

    /// An item of so many bytes.
    pub fn item(bytes: u64) -> Takes
        requires { bytes < 2 ^ 32 }
        ensures { takes_of result ≡ formal.item bytes }
    {
        Takes {
            items: 1,
            weight: 1 + bytes,
            keys: 0,
        }
    }

    /// So many items of so many bytes each.
    pub fn same_items(count: u64, bytes: u64) -> Takes
        requires count { count < 2 ^ 32 }
        requires bytes { bytes < 2 ^ 30 }
        ensures { takes_of result ≡ formal.same_items count bytes }
    {
        Takes {
            items: count,
            weight: count * (1 + bytes),
            keys: 0,
        }
    }

    /// So many keys are tried.
    pub fn tried(keys: u64) -> Takes
        ensures { takes_of result ≡ formal.tried keys }
    {
        Takes {
            items: 0,
            weight: 0,
            keys,
        }
    }

    /// Both together.
    pub fn plus(self, other: Takes) -> Takes
        requires items { self.items + other.items < 2 ^ 64 }
        requires weight { self.weight + other.weight < 2 ^ 64 }
        requires keys { self.keys + other.keys < 2 ^ 64 }
        ensures { takes_of result ≡ formal.plus (takes_of self) (takes_of other) }
    {
        Takes {
            items: self.items + other.items,
            weight: self.weight + other.weight,
            keys: self.keys + other.keys,
        }
    }

    /// The greater of each number.
    pub fn greater(self, other: Takes) -> Takes
        ensures { takes_of result ≡ most.greater (takes_of self) (takes_of other) }
    {
        Takes {
            items: self.items.max(other.items),
            weight: self.weight.max(other.weight),
            keys: self.keys.max(other.keys),
        }
    }
}

/// One of the left with one of the right.
pub fn both(left: Option<Takes>, right: Option<Takes>) -> Option<Takes>
    requires left { IsLightOption left }
    requires right { IsLightOption right }
    ensures { taken result ≡ most.both (taken left) (taken right) }
{
    match (left, right) {
        (Some(left), Some(right)) => Some(left.plus(right)),
        _ => None,
    }
}

/// One of either.
pub fn either(left: Option<Takes>, right: Option<Takes>) -> Option<Takes>
    ensures { taken result ≡ most.either (taken left) (taken right) }
{
    match (left, right) {
        (Some(left), Some(right)) => Some(left.greater(right)),
        (Some(left), None) => Some(left),
        (None, right) => right,
    }
}
