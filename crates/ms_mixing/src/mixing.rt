//! Mixed timelocks (BIP 379, timelock mixing), without memory.
ghost use Rattle.std.specs.Prelude.{◌≡◌, ◌+◌, ◌<◌, ◌^◌, All, IfOk, IfSome};
ghost use Rattle.def_tree.specs.InRange.{IsInRange};
ghost use Rattle.def_tree.specs.Size.{nodes, nodes_of};
ghost use Rattle.def_sane.specs.Locks.{mix as the_mix};
ghost use Rattle.ms_tree.specs.Shape.{shape, shapes};
ghost use Rattle.ms_mixing.specs.Scaffolding.Mixing.{kinds_from as the_kinds_from, kinds_from_each, of_node, asks_both as asks_for_both, together_of};

use crate::kinds::{Kinds, Together};
use ms_tree::{Tree, Two, View};

/// The first node that mixes timelocks: two of its children that may have to be satisfied together hold
/// a time and a height, both relative or both absolute. Nodes are numbered from 0, children before
/// parents and left to right.
pub fn mix(tree: &Tree<'_>) -> Option<u32>
    requires { IsInRange (shape tree.now) }
    ensures first { result ≡ the_mix (shape tree.now) }
    ensures node { IfSome result (λ node. node < nodes (shape tree.now)) }
{
    kinds_from(tree, &mut 0).err()
}

/// The kinds of a tree's locks, or the first node that mixes, where the nodes are numbered from `next`
/// on, which is set behind the last node.
#[cycle(mix)]
fn kinds_from(tree: &Tree<'_>, next: &mut u32) -> Result<Kinds, u32>
    requires range { IsInRange (shape tree.now) }
    requires room { next.old + nodes (shape tree.now) < 2 ^ 32 }
    ensures kinds { result ≡ the_kinds_from next.old (shape tree.now) }
    ensures next { IfOk result (λ kinds. next.new ≡ next.old + nodes (shape tree.now)) }
{
    match tree.view() {
        View::Leaf(leaf) => answer(next, false, Kinds::of_leaf(&leaf)),
        View::AndOr(x, y, z) => {
            let x = kinds_from(x, next)?;
            let y = kinds_from(y, next)?;
            let z = kinds_from(z, next)?;
            answer(next, x.conflicts(y), x.union(y.union(z)))
        }
        View::Two(kind, x, y) => {
            let x = kinds_from(x, next)?;
            let y = kinds_from(y, next)?;
            answer(next, asks_both(kind) && x.conflicts(y), x.union(y))
        }
        View::Thresh(k, children) => {
            let children = together_from(children, next)?;
            answer(next, k >= 2 && children.is_mixed, children.kinds)
        }
        View::Multi(_, _) => answer(next, false, Kinds::none()),
        View::Wrap(_, x) => {
            let x = kinds_from(x, next)?;
            answer(next, false, x)
        }
    }
}

/// What a threshold needs to know of its children, whose nodes are numbered from `next` on.
#[cycle(mix)]
fn together_from(children: &[Tree<'_>], next: &mut u32) -> Result<Together, u32>
    requires range { All (λ x. IsInRange (shape x)) children.now }
    requires room { next.old + nodes_of (shapes children.now) < 2 ^ 32 }
    ensures children { result ≡ together_of (kinds_from_each next.old (shapes children.now)) }
    ensures next { IfOk result (λ together. next.new ≡ next.old + nodes_of (shapes children.now)) }
{
    let mut together = Together::none();
    for child in children {
        let kinds = kinds_from(child, next)?;
        together = together.and(kinds);
    }
    Ok(together)
}

/// Whether a satisfaction of the fragment takes one of both children.
fn asks_both(kind: Two) -> bool
    ensures { result ≡ asks_for_both kind }
{
    matches!(kind, Two::AndV | Two::AndB)
}

/// The kinds of the next node, or the node where it mixes.
fn answer(next: &mut u32, is_mixed: bool, kinds: Kinds) -> Result<Kinds, u32>
    requires { next.old + 1 < 2 ^ 32 }
    ensures kinds { result ≡ of_node next.old is_mixed kinds }
    ensures next { next.new ≡ next.old + 1 }
{
    let node = *next;
    *next += 1;
    if is_mixed { Err(node) } else { Ok(kinds) }
}
