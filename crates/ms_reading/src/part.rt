//! Trees beside their sizes, so that it costs one step to see whether a larger tree is in range.
ghost use Rattle.std.specs.Prelude.{◌≡◌, ◌&&◌, nat_le, IfOk};
ghost use Rattle.def_tree.specs.Tree as tree;
ghost use Rattle.def_tree.specs.InRange as size_there;
ghost use Rattle.def_tree.specs.InRange.{IsInRange};
ghost use Rattle.ms_tree.specs.Shape.{shape};
ghost use Rattle.ms_work.specs.Scaffolding.InRange.{IsInRange-prop};

use bumpalo::Bump;
use ms_tree::{Tree, Two, Wrapper, and_or, two, wrap};
use std::alloc::{AllocError, Global};

/// The most nodes on a path of a tree.
pub const MOST_DEPTH: u64 = 257;

/// The most nodes and keys of `multi` of a tree.
pub const MOST_MEASURE: u64 = 131_072;

/// Whether a tree with these numbers is in range.
pub fn is_small(depth: u64, measure: u64) -> bool
    ensures { result ≡ (nat_le depth 257 && nat_le measure 131072) }
{
    depth <= MOST_DEPTH && measure <= MOST_MEASURE
}

/// A tree in range, with its size.
#[derive(Clone, Copy)]
pub struct Part<'a> {
    /// The tree.
    pub tree: Tree<'a>,
    /// The number of nodes on its longest path.
    pub depth: u64,
    /// The number of its nodes and of keys of `multi`.
    pub measure: u64,
    ghost deep: { depth ≡ size_there.depth (shape tree) },
    ghost large: { measure ≡ size_there.measure (shape tree) },
    ghost in_range: { IsInRange (shape tree) } by { IsInRange-prop (shape tree) },
}

impl<'a> Part<'a> {
    ghost use Rattle.ms_reading.specs.Scaffolding.Parts.{fitting, tree_of, made};

    /// `w:x` of this x, or none where it isn't in range.
    pub fn wrap(
        self,
        arena: &'a Bump<Global>,
        wrapper: Wrapper,
    ) -> Result<Option<Part<'a>>, AllocError>
        ensures { IfOk result (λ o. made o ≡ fitting (tree.wrap wrapper (tree_of self.entry))) }
    {
        let depth = self.depth + 1;
        let measure = self.measure + 1;
        if !is_small(depth, measure) {
            return Ok(None);
        }
        let tree = wrap(arena, wrapper, self.tree)?;
        Ok(Some(Part {
            tree,
            depth,
            measure,
        }))
    }

    /// The fragment with this first child and that second one, or none where it isn't in range.
    pub fn two(
        self,
        arena: &'a Bump<Global>,
        kind: Two,
        second: Part<'a>,
    ) -> Result<Option<Part<'a>>, AllocError>
        ensures { IfOk result (λ o. made o ≡ fitting (tree.two kind (tree_of self.entry) (tree_of second.entry))) }
    {
        let depth = self.depth.max(second.depth) + 1;
        let measure = self.measure + second.measure + 1;
        if !is_small(depth, measure) {
            return Ok(None);
        }
        let tree = two(arena, kind, self.tree, second.tree)?;
        Ok(Some(Part {
            tree,
            depth,
            measure,
        }))
    }

    /// `andor(x,y,z)` of this x, or none where it isn't in range.
    pub fn and_or(
        self,
        arena: &'a Bump<Global>,
        y: Part<'a>,
        z: Part<'a>,
    ) -> Result<Option<Part<'a>>, AllocError>
        ensures { IfOk result (λ o. made o ≡ fitting (tree.and_or (tree_of self.entry) (tree_of y.entry) (tree_of z.entry))) }
    {
        let depth = self.depth.max(y.depth.max(z.depth)) + 1;
        let measure = self.measure + y.measure + z.measure + 1;
        if !is_small(depth, measure) {
            return Ok(None);
        }
        let tree = and_or(arena, self.tree, y.tree, z.tree)?;
        Ok(Some(Part {
            tree,
            depth,
            measure,
        }))
    }
}
