//! The children of a threshold, which are read from the last one on.
ghost use Rattle.std.specs.Prelude.{◌≡◌, ◌^◌, ◌-◌, ◌<◌, ◌≤◌, min, reverse, IfOk};
ghost use Rattle.def_tree.specs.Tree as tree;
ghost use Rattle.def_tree.specs.Range.{AreWritable, count};
ghost use Rattle.def_tree.specs.InRange as size_there;
ghost use Rattle.ms_tree.specs.Shape.{shapes};
ghost use Rattle.ms_work.specs.Scaffolding.InRange.{AreWritable-prop};

use crate::part::{MOST_DEPTH, MOST_MEASURE, Part};
use bumpalo::Bump;
use ms_tree::{Tree, thresh};
use std::alloc::{AllocError, Global};

/// A number of at most ten digits.
#[derive(Clone, Copy)]
pub struct Numeral {
    /// The number.
    pub value: u64,
    ghost ten_digits: { value < 10000000000 },
}

/// Children beside the number of nodes on their longest path, and their nodes and keys of `multi` together.
#[derive(Drop)]
pub struct Children<'a> {
    /// The children, in the order in which they were read: the last one first.
    pub trees: Vec<Tree<'a>>,
    /// The number of nodes on the longest path.
    pub depth: u64,
    /// The number of nodes and of keys of `multi`, up to `u64::MAX`.
    pub measure: u64,
    ghost deep: { depth ≡ size_there.depth_of (shapes (reverse trees.items)) },
    ghost large: { measure ≡ min (size_there.measure_of (shapes (reverse trees.items))) (2 ^ 64 - 1) },
    ghost writable: { AreWritable (shapes (reverse trees.items)) } by { AreWritable-prop (shapes (reverse trees.items)) },
}

impl<'a> Children<'a> {
    ghost use Rattle.ms_reading.specs.Scaffolding.Parts.{fitting, tree_of, made};
    ghost use Rattle.ms_reading.specs.Scaffolding.States.{children_of};

    /// No child yet.
    pub fn none(alloc: Global) -> Children<'a>
        ensures { children_of result ≡ tree.none }
    {
        Children {
            trees: Vec::new(alloc),
            depth: 0,
            measure: 0,
        }
    }

    /// With one more, which stands before them.
    pub fn with(self, child: Part<'a>) -> Result<Children<'a>, AllocError>
        ensures { IfOk result (λ c. children_of c ≡ tree.more (tree_of child.entry) (children_of self.entry)) }
    {
        let Children {
            mut trees,
            depth,
            measure,
        } = self;
        trees.push(child.tree)?;
        Ok(Children {
            trees,
            depth: depth.max(child.depth),
            measure: measure.saturating_add(child.measure),
        })
    }

    /// The threshold of them, whose first one was read, or none where it isn't in range.
    pub fn thresh(self, arena: &'a Bump<Global>, k: Numeral) -> Result<Option<Part<'a>>, AllocError>
        requires { 1 ≤ count (children_of self) }
        ensures { IfOk result (λ o. made o ≡ fitting (tree.thresh k.value (children_of self.entry))) }
    {
        let Children {
            mut trees,
            depth,
            measure,
        } = self;
        if depth >= MOST_DEPTH {
            return Ok(None);
        }
        if measure >= MOST_MEASURE {
            return Ok(None);
        }
        trees.reverse();
        let tree = thresh(arena, k.value, trees)?;
        Ok(Some(Part {
            tree,
            depth: depth + 1,
            measure: measure + 1,
        }))
    }
}
