//! The size of a tree, without memory.
ghost use Rattle.std.specs.Prelude.{◌≡◌, All};
ghost use Rattle.def_tree.specs.InRange.{IsInRange};
ghost use Rattle.def_tree.specs.Size as size;
ghost use Rattle.def_tree.specs.InRange as size_there;
ghost use Rattle.ms_tree.specs.Shape.{shape, shapes};
ghost use Rattle.ms_tree.specs.Scaffolding.Size.{size_of_trees};

use crate::tree::{Tree, View};

/// The three numbers of a tree or of several trees side by side, each up to `u32::MAX`.
#[derive(Clone, Copy)]
struct Size {
    nodes: u32,
    measure: u32,
    depth: u32,
}

impl Size {
    ghost use Rattle.ms_tree.specs.Scaffolding.Size.{beside, below_root, keyed};

    /// No tree.
    const NONE: Size = Size {
        nodes: 0,
        measure: 0,
        depth: 0,
    };

    /// Trees side by side with others.
    fn beside(self, other: Size) -> Size
        ensures { result ≡ beside self other }
    {
        Size {
            nodes: self.nodes.saturating_add(other.nodes),
            measure: self.measure.saturating_add(other.measure),
            depth: self.depth.max(other.depth),
        }
    }

    /// A tree whose children these are.
    fn below_root(self) -> Size
        ensures { result ≡ below_root self }
    {
        Size {
            nodes: self.nodes.saturating_add(1),
            measure: self.measure.saturating_add(1),
            depth: self.depth.saturating_add(1),
        }
    }

    /// So many keys of a `multi`, which the measure counts.
    fn of_keys(count: usize) -> Size
        ensures { result ≡ keyed count }
    {
        Size {
            measure: u32::try_from(count).unwrap_or(u32::MAX),
            ..Size::NONE
        }
    }
}

impl Tree<'_> {
    ghost use Rattle.ms_tree.specs.Scaffolding.Size.{size_of};

    /// How many nodes the tree has, at most 131,072. They are numbered from 0, children before parents and
    /// left to right, so the root has the greatest number. Takes no memory.
    pub fn nodes(&self) -> u32
        requires { IsInRange (shape self.now) }
        ensures { result ≡ size.nodes (shape self.now) }
    {
        self.size().nodes
    }

    /// How many nodes and keys of `multi` the tree has, at most 131,072. Takes no memory.
    pub fn measure(&self) -> u32
        requires { IsInRange (shape self.now) }
        ensures { result ≡ size_there.measure (shape self.now) }
    {
        self.size().measure
    }

    /// How many nodes the longest path from the root down has: 1 of a leaf, at most 257. Takes no memory.
    pub fn depth(&self) -> u32
        requires { IsInRange (shape self.now) }
        ensures { result ≡ size_there.depth (shape self.now) }
    {
        self.size().depth
    }

    #[cycle(size)]
    fn size(&self) -> Size
        requires { IsInRange (shape self.now) }
        ensures { result ≡ size_of (shape self.now) }
    {
        let below = match self.view() {
            View::Leaf(_) => Size::NONE,
            View::AndOr(x, y, z) => x.size().beside(y.size()).beside(z.size()),
            View::Two(_, x, z) => x.size().beside(z.size()),
            View::Thresh(_, children) => size_of_all(children),
            View::Multi(_, keys) => Size::of_keys(keys.len()),
            View::Wrap(_, x) => x.size(),
        };
        below.below_root()
    }
}

#[cycle(size)]
fn size_of_all(children: &[Tree<'_>]) -> Size
    requires { All (λ t. IsInRange (shape t)) children.now }
    ensures { result ≡ size_of_trees (shapes children.now) }
{
    let mut size = Size::NONE;
    for child in children {
        size = size.beside(child.size());
    }
    size
}
