//! Tests of the choice: its numbers, and which children are taken.
ghost use Rattle.std.specs.Prelude.{◌≤◌, length};
ghost use Rattle.ms_choice.specs.Numbers.{IsLightEach, IsLight, IsLightOption};
ghost use Rattle.ms_choice.specs.Tally.{MOST_CHILDREN};

use crate::*;

/// Numbers of a child, satisfied or dissatisfied.
type Three = Option<(u16, u16, u16)>;

fn numbers(three: Three) -> Option<Numbers>
    ensures { IsLightEach result }
{
    match three {
        None => None,
        Some((first, second, third)) => Some(Numbers {
            first: u64::from(first),
            second: u64::from(second),
            third: u64::from(third),
        }),
    }
}

const EMPTY: Slot = Slot {
    first: 0,
    place: 0,
    second: 0,
    third: 0,
};

/// The greatest choice of `count` of these children, and what it takes to dissatisfy all.
fn greatest(children: &[(Three, Three)], count: u64, slots: &mut [Slot]) -> Child
    requires few { length children.now ≤ MOST_CHILDREN }
    requires room { length children.now ≤ length slots.old }
{
    let mut tally = Tally::new();
    for (sat, dsat) in children {
        let child = Child {
            sat: numbers(*sat),
            dsat: numbers(*dsat),
        };
        tally.add(slots, &child);
    }
    Child {
        dsat: tally.none_of(),
        sat: tally.greatest_of(count, slots),
    }
}

/// A key, a preimage, three preimages behind `j`, and a lock: the items, the weight and the keys that they take.
const KEY: (Three, Three) = (Some((1, 74, 0)), Some((1, 1, 0)));

const HASH: (Three, Three) = (Some((1, 33, 0)), Some((1, 33, 0)));

const HASHES: (Three, Three) = (Some((3, 99, 0)), Some((1, 1, 0)));

const LOCK: (Three, Three) = (Some((1, 1, 0)), Some((1, 2, 0)));

const FORCED: (Three, Three) = (Some((2, 40, 3)), None);

const OUT: (Three, Three) = (None, Some((5, 6, 7)));

/// Children, how many of them are satisfied, what that takes, and what it takes to dissatisfy all.
type Greatest<'a> = (&'a [(Three, Three)], u64, Three, Three);

#[test]
fn choices_are_the_greatest(rt: HostRuntime) {
    let mut slots = [EMPTY; 8];
    let cases: [Greatest; 9] = [
        // thresh(2,j:and_v(v:sha256(h1),..),s:pk(A),s:pk(B)): the items and the weight of two choices.
        (&[HASHES, KEY, KEY], 2, Some((5, 174, 0)), Some((3, 3, 0))),
        // thresh(3,pk(A),s:pk(B),s:pk(C),sln:older(32))
        (
            &[KEY, KEY, KEY, LOCK],
            3,
            Some((4, 224, 0)),
            Some((4, 5, 0)),
        ),
        // thresh(1,sha256(h),s:pk(A))
        (&[HASH, KEY], 1, Some((2, 107, 0)), Some((2, 34, 0))),
        // Children that have to be satisfied, or can't be.
        (&[FORCED, KEY, KEY], 1, Some((4, 42, 3)), None),
        (&[KEY, OUT, KEY, FORCED], 2, Some((9, 121, 10)), None),
        (&[FORCED, KEY], 0, None, None),
        (&[OUT, KEY], 2, None, Some((6, 7, 7))),
        (&[KEY, (None, None)], 1, None, None),
        (&[], 0, Some((0, 0, 0)), Some((0, 0, 0))),
    ];
    for (children, count, sat, dsat) in cases {
        if children.len() > 8 {
            return;
        }
        let wanted = Child {
            sat: numbers(sat),
            dsat: numbers(dsat),
        };
        assert_eq!(rt; greatest(children, count, &mut slots), wanted);
    }
}

/// The weights of a child, satisfied and dissatisfied.
type Weights = (Option<u16>, Option<u16>);

fn widened(weight: Option<u16>) -> Option<u64>
    ensures { IsLightOption result }
{
    match weight {
        Some(weight) => Some(u64::from(weight)),
        None => None,
    }
}

fn costs(weights: &Weights) -> Costs
    ensures { IsLight result }
{
    Costs {
        sat: widened(weights.0),
        dsat: widened(weights.1),
    }
}

fn lightest(children: &[Weights], count: u64, slots: &mut [Slot]) -> Option<Choice>
    requires few { length children.now ≤ MOST_CHILDREN }
    requires room { length children.now ≤ length slots.old }
{
    let mut tally = Tally::new();
    for weights in children {
        tally.add_costs(slots, &costs(weights));
    }
    tally.lightest_of(count, slots)
}

/// Children, how many of them are satisfied, and the weight and the children of the choice.
type Lightest<'a> = (&'a [Weights], u64, Option<(u64, &'a [bool])>);

#[test]
fn differences_choose(rt: HostRuntime) {
    let mut slots = [EMPTY; 8];
    let free: [Weights; 3] = [(Some(6), Some(1)), (Some(1), Some(34)), (Some(9), Some(4))];
    let forced: [Weights; 3] = [(Some(70), None), (Some(2), Some(1)), (None, Some(5))];
    let cases: [Lightest; 8] = [
        (&free, 0, Some((39, &[false, false, false]))),
        (&free, 1, Some((6, &[false, true, false]))),
        (&free, 2, Some((11, &[true, true, false]))),
        (&free, 3, Some((16, &[true, true, true]))),
        (&free, 4, None),
        (&forced, 0, None),
        (&forced, 1, Some((76, &[true, false, false]))),
        (&[(Some(1), Some(1)), (None, None)], 1, None),
    ];
    for (children, count, wanted) in cases {
        if children.len() > 8 {
            return;
        }
        let found = lightest(children, count, &mut slots);
        assert_eq!(rt; found.is_some(), wanted.is_some());
        let (Some(found), Some((weight, taken))) = (found, wanted) else {
            continue;
        };
        assert_eq!(rt; found.weight, weight);
        for (place, weights) in children.iter().enumerate() {
            let is_taken = found.is_taken(&costs(weights), place as u32);
            assert_eq!(rt; Some(&is_taken), taken.get(place));
        }
    }
}
