//! The tree below one node of a tree.
ghost use Rattle.std.specs.Prelude.{◌≡◌, ◌+◌, ◌<◌, ◌≤◌, slice_get, All, Some};
ghost use Rattle.def_tree.specs.InRange.{IsInRange};
ghost use Rattle.def_tree.specs.Nodes.{all_nodes};
ghost use Rattle.def_tree.specs.Size.{nodes, nodes_of};
ghost use Rattle.ms_tree.specs.Shape.{shape, shapes};
ghost use Rattle.ms_outline.specs.Scaffolding.Below.{IsBelow, IsAmong};

use ms_tree::{Tree, View};

/// The tree below the node of this number. Takes no memory.
pub fn node_at<'t>(tree: &'t Tree<'t>, number: u32) -> &'t Tree<'t>
    requires range { IsInRange (shape tree.now) }
    requires node { number < nodes (shape tree.now) }
    ensures range { IsInRange (shape result.now) }
    ensures is { slice_get (all_nodes (shape tree.now)) number ≡ Some (shape result.now) }
    ensures size { nodes (shape result.now) ≤ number + 1 }
{
    if number + 1 == tree.nodes() {
        return tree;
    }
    let (child, left) = child_with(tree, number);
    node_at(child, left)
}

/// The child with the node of this number, and the number of the node in it.
fn child_with<'t>(tree: &'t Tree<'t>, number: u32) -> (&'t Tree<'t>, u32)
    requires range { IsInRange (shape tree.now) }
    requires node { number + 1 < nodes (shape tree.now) }
    ensures { IsBelow (shape tree.now) number (shape result.0.now) result.1 }
{
    match tree.view() {
        View::Leaf(_) | View::Multi(..) => (tree, number),
        View::AndOr(x, y, z) => {
            let second = x.nodes();
            let third = second + y.nodes();
            if number < second {
                (x, number)
            } else if number < third {
                (y, number - second)
            } else {
                (z, number - third)
            }
        }
        View::Two(_, x, y) => {
            let second = x.nodes();
            if number < second {
                (x, number)
            } else {
                (y, number - second)
            }
        }
        View::Thresh(_, children) => among(tree, children, number),
        View::Wrap(_, x) => (x, number),
    }
}

/// The same of the children of a threshold.
fn among<'t>(tree: &'t Tree<'t>, children: &'t [Tree<'t>], number: u32) -> (&'t Tree<'t>, u32)
    requires range { All (λ x. IsInRange (shape x)) children.now }
    requires node { number < nodes_of (shapes children.now) }
    ensures { IsAmong (shapes children.now) number (shape result.0.now) result.1 }
{
    let mut left = number;
    for child in children {
        let size = child.nodes();
        if left < size {
            return (child, left);
        }
        left -= size;
    }
    (tree, left)
}
