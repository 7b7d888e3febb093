//! What is known of the children among which is chosen.
ghost use Rattle.std.specs.Prelude.{◌≡◌, ◌+◌, ◌<◌, ◌^◌};
ghost use Rattle.std.specs.Option.{option_map};
ghost use Rattle.ms_choice.specs.Numbers.{number_in, costs_in, IsLight, IsLightChild, IsLightEach, IsLightOption};
ghost use Rattle.ms_choice.specs.declared.children.Number.TheVariants.{First};

/// One of the numbers of a child.
#[derive(Clone, Copy, Debug, PartialEq, Eq)]
pub enum Number {
    /// The first one.
    First,
    /// The second one.
    Second,
    /// The third one.
    Third,
}

/// What a child takes: three numbers, each of them chosen by itself. A user that needs fewer leaves the
/// others 0.
#[derive(Clone, Copy, Debug, PartialEq, Eq)]
pub struct Numbers {
    /// The first one, below 2^32 in a child.
    pub first: u64,
    /// The second one, below 2^32 in a child.
    pub second: u64,
    /// The third one, below 2^32 in a child.
    pub third: u64,
}

impl Numbers {
    /// Nothing is taken.
    pub const NOTHING: Numbers = Numbers {
        first: 0,
        second: 0,
        third: 0,
    };

    /// Both together.
    pub(crate) fn plus(self, other: Numbers) -> Numbers
        requires first { self.first + other.first < 2 ^ 64 }
        requires second { self.second + other.second < 2 ^ 64 }
        requires third { self.third + other.third < 2 ^ 64 }
        ensures first { result.first ≡ self.first + other.first }
        ensures second { result.second ≡ self.second + other.second }
        ensures third { result.third ≡ self.third + other.third }
    {
        Numbers {
            first: self.first + other.first,
            second: self.second + other.second,
            third: self.third + other.third,
        }
    }
}

/// A first number alone.
fn of_first(first: Option<u64>) -> Option<Numbers>
    requires { IsLightOption first }
    ensures first { option_map (number_in First) result ≡ first }
    ensures light { IsLightEach result }
{
    match first {
        Some(first) => Some(Numbers {
            first,
            second: 0,
            third: 0,
        }),
        None => None,
    }
}

/// What a child takes where it is satisfied, and where it is dissatisfied; `None` where it can't be.
#[derive(Clone, Copy, Debug, PartialEq, Eq)]
pub struct Child {
    /// Where it is satisfied.
    pub sat: Option<Numbers>,
    /// Where it is dissatisfied.
    pub dsat: Option<Numbers>,
}

/// The same in one number.
#[derive(Clone, Copy, Debug, PartialEq, Eq)]
pub struct Costs {
    /// Where it is satisfied.
    pub sat: Option<u64>,
    /// Where it is dissatisfied.
    pub dsat: Option<u64>,
}

impl Costs {
    /// A child with this as its first number.
    pub fn as_child(&self) -> Child
        requires { IsLight self.now }
        ensures costs { costs_in First result ≡ self.now }
        ensures light { IsLightChild result }
    {
        Child {
            sat: of_first(self.sat),
            dsat: of_first(self.dsat),
        }
    }
}
