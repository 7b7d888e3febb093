//! Greatest items and heights, put together.
ghost use Rattle.std.specs.Prelude.{◌≡◌};
ghost use Rattle.def_height.specs.Scaffolding.Highest as model;
ghost use Rattle.ms_height.specs.Scaffolding.Low.{IsStorable};

use def_height::Highest;

/// The satisfactions and the dissatisfactions of a fragment, where it has some.
#[derive(Clone, Copy, Debug, PartialEq, Eq)]
pub struct Heights {
    /// Of the satisfactions; `None` where there is none.
    pub sat: Option<Highest>,
    /// Of the dissatisfactions; `None` where there is none.
    pub dsat: Option<Highest>,
}

/// One of so many items and this height.
pub fn only(items: u64, height: u64) -> Option<Highest>
    ensures { result ≡ model.only items height }
{
    Some(Highest { items, height })
}

/// One of the first, which leaves so many elements of those that it found, and then one of the second.
pub fn both(left: u32, first: Option<Highest>, second: Option<Highest>) -> Option<Highest>
    requires first { IsStorable first }
    requires second { IsStorable second }
    ensures { result ≡ model.both left first second }
{
    match (first, second) {
        (Some(first), Some(second)) => Some(Highest {
            items: first.items + second.items,
            height: (first.height + second.items).max(u64::from(left) + second.height),
        }),
        _ => None,
    }
}

/// One of either.
pub fn either(one: Option<Highest>, other: Option<Highest>) -> Option<Highest>
    ensures { result ≡ model.either one other }
{
    match (one, other) {
        (Some(one), Some(other)) => Some(Highest {
            items: one.items.max(other.items),
            height: one.height.max(other.height),
        }),
        (Some(one), None) => Some(one),
        (None, other) => other,
    }
}

/// One with a moment at which there are so many elements.
pub fn at_least(elements: u64, one: Option<Highest>) -> Option<Highest>
    ensures { result ≡ model.at_least elements one }
{
    match one {
        Some(one) => Some(Highest {
            items: one.items,
            height: one.height.max(elements),
        }),
        None => None,
    }
}
