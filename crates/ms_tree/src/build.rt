//! Builders. Each asks that the tree which it makes is in range, and puts one node into the arena, beside those of
//! its parts. Want of memory is its only refusal; a list that was handed in is given up with it.
ghost use Rattle.std.specs.Prelude.{◌≡◌, IfOk};
ghost use Rattle.def_tree.specs.Tree as tree;
ghost use Rattle.def_tree.specs.InRange.{IsInRange};
ghost use Rattle.ms_tree.specs.Shape.{shape, shapes, leaf_shape};

use crate::key::Key;
use crate::tree::{Leaf, Node, Tree};
use bumpalo::Bump;
use def_tree::{Two, Wrapper};
use std::alloc::{AllocError, Global};

/// The tree with this root.
fn rooted<'a>(arena: &'a Bump<Global>, root: Node<'a>) -> Result<Tree<'a>, AllocError>
    ensures { IfOk result (λ t. t.node.now ≡ root.entry) }
{
    let node = arena.try_alloc(root)?;
    Ok(Tree { node })
}

/// The tree of a leaf.
pub fn leaf<'a>(arena: &'a Bump<Global>, leaf: Leaf) -> Result<Tree<'a>, AllocError>
    requires { IsInRange (leaf_shape leaf) }
    ensures tree { IfOk result (λ t. shape t ≡ leaf_shape leaf) }
    ensures in_range { IfOk result (λ t. IsInRange (shape t)) }
{
    let leaf = arena.try_alloc(leaf)?;
    rooted(arena, Node::Leaf(leaf))
}

/// The tree `andor(x,y,z)`.
pub fn and_or<'a>(
    arena: &'a Bump<Global>,
    x: Tree<'a>,
    y: Tree<'a>,
    z: Tree<'a>,
) -> Result<Tree<'a>, AllocError>
    requires { IsInRange (tree.and_or (shape x) (shape y) (shape z)) }
    ensures tree { IfOk result (λ t. shape t ≡ tree.and_or (shape x.entry) (shape y.entry) (shape z.entry)) }
    ensures in_range { IfOk result (λ t. IsInRange (shape t)) }
{
    rooted(arena, Node::AndOr(x, y, z))
}

/// The tree of a fragment with two children, `x` the first one.
pub fn two<'a>(
    arena: &'a Bump<Global>,
    kind: Two,
    x: Tree<'a>,
    z: Tree<'a>,
) -> Result<Tree<'a>, AllocError>
    requires { IsInRange (tree.two kind (shape x) (shape z)) }
    ensures tree { IfOk result (λ t. shape t ≡ tree.two kind (shape x.entry) (shape z.entry)) }
    ensures in_range { IfOk result (λ t. IsInRange (shape t)) }
{
    rooted(arena, Node::Two(kind, x, z))
}

/// The tree `thresh(k,x1,..,xn)` of these children, in their order. That `k` is 1 to n is a rule of the types.
pub fn thresh<'a>(
    arena: &'a Bump<Global>,
    k: u64,
    children: Vec<Tree<'a>>,
) -> Result<Tree<'a>, AllocError>
    requires { IsInRange (tree.thresh k (shapes children.items)) }
    ensures tree { IfOk result (λ t. shape t ≡ tree.thresh k (shapes children.entry.items)) }
    ensures in_range { IfOk result (λ t. IsInRange (shape t)) }
{
    let children = &*arena.try_alloc_slice_copy(&children)?;
    over_children(arena, k, children)
}

/// The same of children that lie in the arena.
fn over_children<'a>(
    arena: &'a Bump<Global>,
    k: u64,
    children: &'a [Tree<'a>],
) -> Result<Tree<'a>, AllocError>
    ensures { IfOk result (λ t. shape t ≡ tree.thresh k (shapes children.now)) }
{
    rooted(arena, Node::Thresh(k, children))
}

/// The tree `multi(k,key1,..,keyn)` of these keys, in their order. That there are at most 20, and that `k` is 1 to
/// n, are rules of the types.
pub fn multi<'a>(arena: &'a Bump<Global>, k: u64, keys: Vec<Key>) -> Result<Tree<'a>, AllocError>
    requires { IsInRange (tree.multi k keys.items) }
    ensures tree { IfOk result (λ t. shape t ≡ tree.multi k keys.items) }
    ensures in_range { IfOk result (λ t. IsInRange (shape t)) }
{
    let keys = arena.try_alloc_slice_copy(&keys)?;
    rooted(arena, Node::Multi(k, keys))
}

/// The tree `w:x` of a wrapper w.
pub fn wrap<'a>(
    arena: &'a Bump<Global>,
    wrapper: Wrapper,
    x: Tree<'a>,
) -> Result<Tree<'a>, AllocError>
    requires { IsInRange (tree.wrap wrapper (shape x)) }
    ensures tree { IfOk result (λ t. shape t ≡ tree.wrap wrapper (shape x.entry)) }
    ensures in_range { IfOk result (λ t. IsInRange (shape t)) }
{
    rooted(arena, Node::Wrap(wrapper, x))
}
