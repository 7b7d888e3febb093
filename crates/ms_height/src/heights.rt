//! How high satisfactions and dissatisfactions go, without memory.
ghost use Rattle.std.specs.Prelude.{◌≡◌, ◌+◌, ◌*◌, ◌≤◌, length, All};
ghost use Rattle.def_tree.specs.InRange.{MOST_MEASURE, IsInRange, measure_of};
ghost use Rattle.def_tree.specs.Tree as tree;
ghost use Rattle.def_types.specs.Typed.{IsTyped};
ghost use Rattle.ms_tree.specs.Shape.{shape, shapes, leaf_shape};
ghost use Rattle.ms_height.specs.Scaffolding.Kept.{heights_in, heights_of};
ghost use Rattle.ms_height.specs.Scaffolding.Low.{IsLowHeights};
ghost use Rattle.ms_height.specs.Scaffolding.Ready.{IsReady};
ghost use Rattle.ms_height.specs.Scaffolding.Row.{highest_of};

use crate::highest::{Heights, at_least, only};
use crate::kept::slot_of;
use crate::row::{Script, of_row};
use crate::threshold::chosen;
use ms_choice::Slot;
use ms_rows::{Argument, and_or, two, wrap};
use ms_tree::{Key, Leaf, Tree, Two, View, Wrapper};

/// The greatest items and heights of the formal satisfactions and dissatisfactions of a tree, each number by
/// itself.
#[cycle(heights)]
#[tactic(auto, using(crate::proofs::Bounds::low_of))]
pub fn heights(tree: &Tree<'_>, slots: &mut [Slot]) -> Heights
    requires { IsReady (shape tree.now) (length slots.old) }
    ensures highest { result ≡ highest_of (shape tree.now) }
    ensures low { IsLowHeights result }
{
    match tree.view() {
        View::Leaf(leaf) => of_leaf(leaf),
        View::AndOr(x, y, z) => of_and_or(x, y, z, slots),
        View::Two(kind, x, z) => of_two(kind, x, z, slots),
        View::Thresh(k, children) => of_thresh(k, children, slots),
        View::Multi(k, keys) => of_multi(k, keys),
        View::Wrap(wrapper, x) => of_wrap(wrapper, x, slots),
    }
}

fn of_leaf(leaf: Leaf) -> Heights
    ensures { result ≡ highest_of (leaf_shape leaf) }
{
    match leaf {
        Leaf::Zero => Heights {
            sat: None,
            dsat: only(0, 1),
        },
        Leaf::One | Leaf::Older(_) | Leaf::After(_) => Heights {
            sat: only(0, 1),
            dsat: None,
        },
        Leaf::PkK(_) => Heights {
            sat: only(1, 2),
            dsat: only(1, 2),
        },
        Leaf::PkH(_) => Heights {
            sat: only(2, 4),
            dsat: only(2, 4),
        },
        Leaf::Hash(_) => Heights {
            sat: only(1, 3),
            dsat: only(1, 3),
        },
    }
}

#[cycle(heights)]
fn of_and_or(x: &Tree<'_>, y: &Tree<'_>, z: &Tree<'_>, slots: &mut [Slot]) -> Heights
    requires x { IsReady (shape x.now) (length slots.old) }
    requires y { IsReady (shape y.now) (length slots.old) }
    requires z { IsReady (shape z.now) (length slots.old) }
    ensures { result ≡ highest_of (tree.and_or (shape x.now) (shape y.now) (shape z.now)) }
{
    let x = heights(x, slots);
    let y = heights(y, slots);
    let z = heights(z, slots);
    of_row(
        &Script::bare(),
        &and_or(Argument::X, Argument::Y, Argument::Z),
        &x,
        &y,
        &z,
    )
}

#[cycle(heights)]
#[tactic(auto, using(crate::proofs::Rows::two_reads))]
fn of_two(kind: Two, x: &Tree<'_>, z: &Tree<'_>, slots: &mut [Slot]) -> Heights
    requires x { IsReady (shape x.now) (length slots.old) }
    requires z { IsReady (shape z.now) (length slots.old) }
    ensures { result ≡ highest_of (tree.two kind (shape x.now) (shape z.now)) }
{
    let x = heights(x, slots);
    let z = heights(z, slots);
    of_row(
        &Script::of_two(kind),
        &two(kind, Argument::X, Argument::Z),
        &x,
        &z,
        &z,
    )
}

#[cycle(heights)]
#[tactic(auto, using(ms_work::proofs::Children::few_children))]
fn of_thresh(k: u64, children: &[Tree<'_>], slots: &mut [Slot]) -> Heights
    requires in_range { All (λ x. IsInRange (shape x)) children.now }
    requires typed { All (λ x. IsTyped (shape x)) children.now }
    requires few { measure_of (shapes children.now) ≤ MOST_MEASURE }
    requires room { 4 * measure_of (shapes children.now) + 4 ≤ length slots.old }
    ensures { result ≡ highest_of (tree.thresh k (shapes children.now)) }
{
    let (sats, rest) = slots.split_at_mut(children.len());
    let (dsats, rest) = rest.split_at_mut(children.len());
    keep_children(children, sats, dsats, rest);
    Heights {
        sat: at_least(2, chosen(k, sats, dsats, rest)),
        dsat: at_least(2, chosen(0, sats, dsats, rest)),
    }
}

/// Keeps what each child of a threshold takes, with the rest of the slots for each of them.
#[cycle(heights)]
fn keep_children(children: &[Tree<'_>], sats: &mut [Slot], dsats: &mut [Slot], rest: &mut [Slot])
    requires in_range { All (λ x. IsInRange (shape x)) children.now }
    requires typed { All (λ x. IsTyped (shape x)) children.now }
    requires sats { length sats.old ≡ length children.now }
    requires dsats { length dsats.old ≡ length children.now }
    requires room { 4 * measure_of (shapes children.now) + 4 ≤ 2 * length children.now + length rest.old }
    ensures { heights_in sats.new dsats.new ≡ heights_of (shapes children.now) }
{
    for index in 0..children.len() {
        let child = heights(&children[index], rest);
        sats[index] = slot_of(child.sat);
        dsats[index] = slot_of(child.dsat);
    }
}

fn of_multi(k: u64, keys: &[Key]) -> Heights
    requires enough { k ≤ length keys.now }
    requires few { length keys.now ≤ MOST_MEASURE }
    ensures { result ≡ highest_of (tree.multi k keys.now) }
{
    let of_each = only(k + 1, keys.len() as u64 + k + 3);
    Heights {
        sat: of_each,
        dsat: of_each,
    }
}

#[cycle(heights)]
#[tactic(auto, using(crate::proofs::Rows::wrap_reads))]
fn of_wrap(wrapper: Wrapper, x: &Tree<'_>, slots: &mut [Slot]) -> Heights
    requires { IsReady (shape x.now) (length slots.old) }
    ensures { result ≡ highest_of (tree.wrap wrapper (shape x.now)) }
{
    let x = heights(x, slots);
    of_row(
        &Script::of_wrap(wrapper),
        &wrap(wrapper, Argument::X),
        &x,
        &x,
        &x,
    )
}
