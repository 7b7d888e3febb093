//! What the formal satisfactions of a tree take at most, without memory.
ghost use Rattle.std.specs.Prelude.{◌≤◌, length};
ghost use Rattle.def_tree.specs.InRange.{MOST_MEASURE};
ghost use Rattle.def_tree.specs.Tree as tree;
ghost use Rattle.ms_tree.specs.Shape.{shape, shapes, leaf_shape};
ghost use Rattle.ms_sane.specs.Scaffolding.Most.{IsMost};
ghost use Rattle.ms_sane.specs.Scaffolding.Takes.{IsLightMost};
ghost use Rattle.ms_work.specs.Scaffolding.Ready.{IsReady, AreReady};

use crate::row::of_row;
use crate::takes::{Most, Takes, taken_of};
use ms_bytes::MAX_SIGNATURE_SIZE;
use ms_choice::{Slot, Tally};
use ms_rows::{Argument, and_or, two, wrap};
use ms_tree::{Key, Leaf, Tree, Two, View, Wrapper};

/// The longest signature, in bytes.
const SIGNATURE: u64 = MAX_SIGNATURE_SIZE as u64;

/// A preimage, and what stands for one in a dissatisfaction, in bytes.
const PREIMAGE: u64 = 32;

/// What the formal satisfactions and dissatisfactions of a tree take at most, each number by itself. Of
/// the slots it writes at most as many as the tree has nodes.
#[cycle(most)]
#[tactic(auto, using(crate::proofs::Bounds::light_of, ms_work::proofs::Children::ready_children, ms_work::proofs::Enough::multi_enough))]
pub fn most(tree: &Tree<'_>, slots: &mut [Slot]) -> Most
    requires { IsReady (shape tree.now) (length slots.old) }
    ensures takes { IsMost result (shape tree.now) }
    ensures light { IsLightMost result }
{
    match tree.view() {
        View::Leaf(leaf) => of_leaf(leaf),
        View::AndOr(x, y, z) => of_and_or(x, y, z, slots),
        View::Two(kind, x, z) => of_two(kind, x, z, slots),
        View::Thresh(k, children) => of_thresh(k, children, slots),
        View::Multi(k, keys) => of_multi(k, keys),
        View::Wrap(wrapper, x) => of_wrap(wrapper, x, slots),
    }
}

fn of_leaf(leaf: Leaf) -> Most
    ensures { IsMost result (leaf_shape leaf) }
{
    match leaf {
        Leaf::Zero => Most {
            sat: None,
            dsat: Some(Takes::NOTHING),
        },
        Leaf::One | Leaf::Older(_) | Leaf::After(_) => Most {
            sat: Some(Takes::NOTHING),
            dsat: None,
        },
        Leaf::PkK(_) => Most {
            sat: Some(Takes::item(SIGNATURE)),
            dsat: Some(Takes::item(0)),
        },
        Leaf::PkH(key) => {
            let key = Takes::item(key.as_bytes().len() as u64);
            Most {
                sat: Some(Takes::item(SIGNATURE).plus(key)),
                dsat: Some(Takes::item(0).plus(key)),
            }
        }
        Leaf::Hash(_) => Most {
            sat: Some(Takes::item(PREIMAGE)),
            dsat: Some(Takes::item(PREIMAGE)),
        },
    }
}

#[cycle(most)]
#[tactic(auto, using(crate::proofs::Rows::most_and_or))]
fn of_and_or(x: &Tree<'_>, y: &Tree<'_>, z: &Tree<'_>, slots: &mut [Slot]) -> Most
    requires x { IsReady (shape x.now) (length slots.old) }
    requires y { IsReady (shape y.now) (length slots.old) }
    requires z { IsReady (shape z.now) (length slots.old) }
    ensures { IsMost result (tree.and_or (shape x.now) (shape y.now) (shape z.now)) }
{
    let x = most(x, slots);
    let y = most(y, slots);
    let z = most(z, slots);
    of_row(&and_or(Argument::X, Argument::Y, Argument::Z), &x, &y, &z)
}

#[cycle(most)]
#[tactic(auto, using(crate::proofs::Rows::most_two))]
fn of_two(kind: Two, x: &Tree<'_>, z: &Tree<'_>, slots: &mut [Slot]) -> Most
    requires x { IsReady (shape x.now) (length slots.old) }
    requires z { IsReady (shape z.now) (length slots.old) }
    ensures { IsMost result (tree.two kind (shape x.now) (shape z.now)) }
{
    let x = most(x, slots);
    let z = most(z, slots);
    of_row(&two(kind, Argument::X, Argument::Z), &x, &z, &z)
}

#[cycle(most)]
#[tactic(auto, using(ms_work::proofs::Children::ready_behind, ms_work::proofs::Children::room_behind, ms_tree::proofs::Parts::nodes_at))]
fn of_thresh(k: u64, children: &[Tree<'_>], slots: &mut [Slot]) -> Most
    requires { AreReady children.now (length slots.old) }
    ensures { IsMost result (tree.thresh k (shapes children.now)) }
{
    let mut tally = Tally::new();
    for child in children {
        let taken = most(child, &mut slots[tally.free..]);
        tally.add(slots, &taken.as_child());
    }
    let dsat = taken_of(tally.none_of());
    let sat = taken_of(tally.greatest_of(k, slots));
    Most { sat, dsat }
}

fn of_multi(k: u64, keys: &[Key]) -> Most
    requires enough { k ≤ length keys.now }
    requires few { length keys.now ≤ MOST_MEASURE }
    ensures { IsMost result (tree.multi k keys.now) }
{
    let tried = Takes::tried(keys.len() as u64);
    let signatures = Takes::same_items(k, SIGNATURE);
    Most {
        sat: Some(Takes::item(0).plus(signatures).plus(tried)),
        dsat: Some(Takes::same_items(k + 1, 0).plus(tried)),
    }
}

#[cycle(most)]
#[tactic(auto, using(crate::proofs::Rows::most_wrap))]
fn of_wrap(wrapper: Wrapper, x: &Tree<'_>, slots: &mut [Slot]) -> Most
    requires { IsReady (shape x.now) (length slots.old) }
    ensures { IsMost result (tree.wrap wrapper (shape x.now)) }
{
    let x = most(x, slots);
    of_row(&wrap(wrapper, Argument::X), &x, &x, &x)
}
