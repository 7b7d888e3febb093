//! A type system's answer for a tree.
ghost use Rattle.std.specs.Prelude.{◌≡◌, ◌+◌, ◌<◌, ◌^◌, ◌++◌, [], ◌∷◌, length, All, IfOk, List};
ghost use Rattle.def_tree.specs.InRange.{IsInRange};
ghost use Rattle.def_tree.specs.Size.{nodes, nodes_of};
ghost use Rattle.def_types.specs.Row.{Rows};
ghost use Rattle.def_types.specs.System.{typed_from, typed_each};
ghost use Rattle.ms_tree.specs.Shape.{shape, shapes};
ghost use Rattle.ms_types.specs.Checked.{checked, at_node};
ghost use Rattle.ms_types.specs.Rows.{leaf_row};
ghost use Rattle.ms_types.specs.Scaffolding.Seen.{seen_of};

use def_types::{Rule, RuleAt};
use ms_tree::{Key, Leaf, Tree, Two, View, Wrapper};

/// A type system: the type of each fragment by the types of its children, or the requirement of it that
/// is false.
pub trait TypeSystem: Copy {
    /// What the type of a threshold needs to know of its children's types.
    type Children: Copy;

    // The rows of the fragments.
    ghost rows: { Rows Self };

    // What is kept of children of these types.
    ghost seen: { List Self → Self.Children };

    /// A fragment without children.
    fn of_leaf(leaf: &Leaf) -> Result<Self, Rule>
        ensures { result ≡ checked (leaf_row rows leaf.now) };

    /// `andor` with children of these types.
    fn of_and_or(x: Self, y: Self, z: Self) -> Result<Self, Rule>
        ensures { result ≡ checked (rows.and_or x y z) };

    /// A fragment with two children of these types.
    fn of_two(kind: Two, x: Self, y: Self) -> Result<Self, Rule>
        ensures { result ≡ checked (rows.two kind x y) };

    /// No child.
    fn no_children() -> Self::Children
        ensures { result ≡ seen [] };

    /// One more child behind the others.
    fn and_child(children: Self::Children, child: Self) -> Self::Children
        requires { (types : List Self) × (children ≡ seen types) × (length types < 2 ^ 63) }
        ensures { (types : List Self) → children ≡ seen types → result ≡ seen (types ++ child ∷ []) };

    /// `thresh` of this number with these children.
    fn of_thresh(k: u64, children: Self::Children) -> Result<Self, Rule>
        ensures { (types : List Self) → children ≡ seen types → result ≡ checked (rows.thresh k types) };

    /// `multi` of this number with these keys.
    fn of_multi(k: u64, keys: &[Key]) -> Result<Self, Rule>
        ensures { result ≡ checked (rows.multi k keys.now) };

    /// A wrapper with a child of this type.
    fn of_wrap(wrapper: Wrapper, x: Self) -> Result<Self, Rule>
        ensures { result ≡ checked (rows.wrap wrapper x) };
}

/// The type of a tree whose nodes are numbered from `next` on, or the first requirement that is false.
/// `next` is set behind the last node.
#[cycle(typed)]
pub fn typed<T: TypeSystem>(tree: &Tree<'_>, next: &mut u32) -> Result<T, RuleAt>
    requires range { IsInRange (shape tree.now) }
    requires room { next.old + nodes (shape tree.now) < 2 ^ 32 }
    ensures typed { result ≡ typed_from T.rows next.old (shape tree.now) }
    ensures next { IfOk result (λ value. next.new ≡ next.old + nodes (shape tree.now)) }
{
    match tree.view() {
        View::Leaf(leaf) => answer(next, T::of_leaf(&leaf)),
        View::AndOr(x, y, z) => {
            let x = typed(x, next)?;
            let y = typed(y, next)?;
            let z = typed(z, next)?;
            answer(next, T::of_and_or(x, y, z))
        }
        View::Two(kind, x, y) => {
            let x = typed(x, next)?;
            let y = typed(y, next)?;
            answer(next, T::of_two(kind, x, y))
        }
        View::Thresh(k, children) => {
            let children = typed_children::<T>(children, next)?;
            answer(next, T::of_thresh(k, children))
        }
        View::Multi(k, keys) => answer(next, T::of_multi(k, keys)),
        View::Wrap(wrapper, x) => {
            let x = typed(x, next)?;
            answer(next, T::of_wrap(wrapper, x))
        }
    }
}

/// What the type of a threshold needs to know of its children, whose nodes are numbered from `next` on.
#[cycle(typed)]
fn typed_children<T: TypeSystem>(
    children: &[Tree<'_>],
    next: &mut u32,
) -> Result<T::Children, RuleAt>
    requires range { All (λ x. IsInRange (shape x)) children.now }
    requires room { next.old + nodes_of (shapes children.now) < 2 ^ 32 }
    ensures children { result ≡ seen_of T.seen (typed_each T.rows next.old (shapes children.now)) }
    ensures next { IfOk result (λ seen. next.new ≡ next.old + nodes_of (shapes children.now)) }
{
    let mut seen = T::no_children();
    for child in children {
        let child = typed(child, next)?;
        seen = T::and_child(seen, child);
    }
    Ok(seen)
}

/// The type of the next node, or the requirement of it that is false.
fn answer<T: TypeSystem>(next: &mut u32, of_node: Result<T, Rule>) -> Result<T, RuleAt>
    requires { next.old + 1 < 2 ^ 32 }
    ensures typed { result ≡ at_node next.old of_node }
    ensures next { next.new ≡ next.old + 1 }
{
    let node = *next;
    *next += 1;
    match of_node {
        Ok(value) => Ok(value),
        Err(rule) => Err(RuleAt { node, rule }),
    }
}
