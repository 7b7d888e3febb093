//! The correctness type of an expression with a letter before it, and of a node over children of other types.
ghost use Rattle.std.specs.Prelude.{◌≡◌, ◌<◌, ◌&&◌, nat_le, is_some, length, slice_get, Some};
ghost use Rattle.def_tree.specs.Children.{children as children_of};
ghost use Rattle.def_tree.specs.InRange.{IsInRange};
ghost use Rattle.def_tree.specs.Tree.{just_0, and_or, two, thresh, none};
ghost use Rattle.def_types.specs.Correctness.{correctness};
ghost use Rattle.ms_tree.specs.Shape.{shape};
ghost use Rattle.ms_types.specs.Rows.{leaf_row};
ghost use Rattle.ms_types.specs.Scaffolding.Told.{row_told};
ghost use Rattle.ms_types.specs.Replaced.{letter_told, over_told, count, replaced, is_right as the_is_right, wrong as the_wrong, wrongs};

use crate::nodes::{of_and_or, of_two, of_wrap, passed};
use crate::requirements::{may_be_first, may_follow};
use crate::system::TypeSystem;
use def_types::CorrectnessType;
use ms_tree::{Leaf, Tree, Two, View, Wrapper};

/// A letter before a colon (BIP 379): a wrapper, or the sugar `t:`, `l:` and `u:`.
#[derive(Clone, Copy, Debug, PartialEq, Eq)]
pub enum Letter {
    /// A wrapper.
    Wrapper(Wrapper),
    /// `t:X` is `and_v(X,1)`.
    T,
    /// `l:X` is `or_i(0,X)`.
    L,
    /// `u:X` is `or_i(X,0)`.
    U,
}

/// The correctness type of an expression of this type with a letter before it; none where a rule is broken.
#[tactic(auto, unfolding(def_types::proofs::Rows::correctness_rows))]
pub fn correctness_of_letter(letter: Letter, x: Option<CorrectnessType>) -> Option<CorrectnessType>
    ensures { result ≡ letter_told letter x }
{
    match letter {
        Letter::Wrapper(wrapper) => of_wrap(wrapper, x),
        Letter::T => of_two(Two::AndV, x, of_digit(Leaf::One)),
        Letter::L => of_two(Two::OrI, of_digit(Leaf::Zero), x),
        Letter::U => of_two(Two::OrI, x, of_digit(Leaf::Zero)),
    }
}

fn of_digit(leaf: Leaf) -> Option<CorrectnessType>
    ensures { result ≡ row_told (leaf_row correctness leaf) }
{
    passed(CorrectnessType::of_leaf(&leaf))
}

/// Whether the root of a tree breaks no rule over children of these types, but for the one at a place, which has another
/// type. `wrong` of the children have a type that a threshold's may not have there.
pub fn passes_with(
    tree: &Tree<'_>,
    children: &[Option<CorrectnessType>],
    wrong: usize,
    place: usize,
    child: Option<CorrectnessType>,
) -> bool
    requires range { IsInRange (shape tree.now) }
    requires count { length children.now ≡ count (children_of (shape tree.now)) }
    requires place { place < length children.now }
    requires wrong { wrong ≡ wrongs 0 children.now }
    ensures { result ≡ is_some (over_told (shape tree.now) (replaced children.now place child)) }
{
    match tree.view() {
        View::Leaf(_) | View::Multi(..) => false,
        View::AndOr(..) => passes_and_or(children, place, child),
        View::Two(kind, ..) => passes_two(kind, children, place, child),
        View::Thresh(k, _) => passes_thresh(k, children, wrong, place, child),
        View::Wrap(wrapper, _) => of_wrap(wrapper, child).is_some(),
    }
}

fn passes_and_or(
    children: &[Option<CorrectnessType>],
    place: usize,
    child: Option<CorrectnessType>,
) -> bool
    requires count { length children.now ≡ 3 }
    requires place { place < 3 }
    ensures { result ≡ is_some (over_told (and_or just_0 just_0 just_0) (replaced children.now place child)) }
{
    let x = instead(children, place, child, 0);
    let y = instead(children, place, child, 1);
    let z = instead(children, place, child, 2);
    of_and_or(x, y, z).is_some()
}

fn passes_two(
    kind: Two,
    children: &[Option<CorrectnessType>],
    place: usize,
    child: Option<CorrectnessType>,
) -> bool
    requires count { length children.now ≡ 2 }
    requires place { place < 2 }
    ensures { result ≡ is_some (over_told (two kind just_0 just_0) (replaced children.now place child)) }
{
    let x = instead(children, place, child, 0);
    let y = instead(children, place, child, 1);
    of_two(kind, x, y).is_some()
}

fn passes_thresh(
    k: u64,
    children: &[Option<CorrectnessType>],
    wrong: usize,
    place: usize,
    child: Option<CorrectnessType>,
) -> bool
    requires place { place < length children.now }
    requires wrong { wrong ≡ wrongs 0 children.now }
    ensures { result ≡ is_some (over_told (thresh k none) (replaced children.now place child)) }
{
    let others_are_right = wrong == wrong_at(place, children[place]);
    is_within(k, children.len() as u64) & (others_are_right & is_right(place, child))
}

/// Whether a threshold of so many children may have this number.
fn is_within(k: u64, count: u64) -> bool
    ensures { result ≡ nat_le 1 k && nat_le k count }
{
    1 <= k && k <= count
}

/// The element at a place of a list with another element at one place.
fn instead(
    children: &[Option<CorrectnessType>],
    place: usize,
    child: Option<CorrectnessType>,
    at: usize,
) -> Option<CorrectnessType>
    requires { at < length children.now }
    ensures { slice_get (replaced children.now place child) at ≡ Some result }
{
    if at == place { child } else { children[at] }
}

/// How many of a threshold's children have a type that they may not have there: the first one is B d u, and the others are
/// W d u.
pub fn count_wrong(children: &[Option<CorrectnessType>]) -> usize
    ensures { result ≡ wrongs 0 children.now }
{
    let mut wrong = 0;
    for (place, child) in children.iter().enumerate() {
        wrong += wrong_at(place, *child);
    }
    wrong
}

/// 1 where the child of a threshold at this place may not have this type, and 0 where it may.
fn wrong_at(place: usize, child: Option<CorrectnessType>) -> usize
    ensures { result ≡ the_wrong place child }
{
    if is_right(place, child) { 0 } else { 1 }
}

/// Whether the child of a threshold at this place may have this type.
fn is_right(place: usize, child: Option<CorrectnessType>) -> bool
    ensures { result ≡ the_is_right place child }
{
    match child {
        Some(ty) => {
            if place == 0 {
                may_be_first(ty)
            } else {
                may_follow(ty)
            }
        }
        None => false,
    }
}
