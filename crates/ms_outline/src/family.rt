//! The types of a node's children, and the numbers of their roots.
ghost use Rattle.std.specs.Prelude.{◌≡◌, ◌+◌, ◌-◌, ◌<◌, ◌^◌, ◌∷◌, [], ◌++◌, All, IfOk};
ghost use Rattle.def_tree.specs.Children.{children as children_of};
ghost use Rattle.def_tree.specs.InRange.{IsInRange};
ghost use Rattle.def_tree.specs.Size.{nodes, nodes_of};
ghost use Rattle.def_types.specs.Correctness.{correctness_of as the_correctness_of};
ghost use Rattle.ms_tree.specs.Shape.{shape, shapes};
ghost use Rattle.ms_types.specs.Told.{told};
ghost use Rattle.ms_outline.specs.Scaffolding.Found.{types_of, numbers_of};

use ms_tree::{Tree, View};
use ms_types::{CorrectnessType, correctness_of};
use std::alloc::{AllocError, Global};

/// A node's children, from left to right.
#[derive(Drop)]
pub struct Family {
    /// Their correctness types, each of what stands below the child alone; none where a rule is broken there.
    pub types: Vec<Option<CorrectnessType>>,
    /// The numbers of their roots.
    pub numbers: Vec<u32>,
}

impl Family {
    /// The children of a tree whose nodes have the numbers from `first` on. `AllocError` comes only where memory is wanting.
    pub fn new(alloc: Global, tree: &Tree<'_>, first: u32) -> Result<Family, AllocError>
        requires range { IsInRange (shape tree.now) }
        requires room { first + nodes (shape tree.now) < 2 ^ 32 + 1 }
        ensures types { IfOk result (λ family. family.types.items ≡ types_of (children_of (shape tree.now))) }
        ensures numbers { IfOk result (λ family. family.numbers.items ≡ numbers_of first (children_of (shape tree.now))) }
    {
        let mut family = Family {
            types: Vec::new(alloc),
            numbers: Vec::new(alloc),
        };
        match tree.view() {
            View::Leaf(_) | View::Multi(..) => {}
            View::AndOr(x, y, z) => {
                family.add(x, first)?;
                family.add(y, first + x.nodes())?;
                family.add(z, first + x.nodes() + y.nodes())?;
            }
            View::Two(_, x, y) => {
                family.add(x, first)?;
                family.add(y, first + x.nodes())?;
            }
            View::Thresh(_, children) => family.add_all(children, first)?,
            View::Wrap(_, x) => family.add(x, first)?,
        }
        Ok(family)
    }

    /// Adds trees side by side.
    fn add_all(&mut self, trees: &[Tree<'_>], first: u32) -> Result<(), AllocError>
        requires range { All (λ x. IsInRange (shape x)) trees.now }
        requires room { first + nodes_of (shapes trees.now) < 2 ^ 32 }
        ensures types { IfOk result (λ done. self.new.types.items ≡ self.old.types.items ++ types_of (shapes trees.now)) }
        ensures numbers { IfOk result (λ done. self.new.numbers.items ≡ self.old.numbers.items ++ numbers_of first (shapes trees.now)) }
    {
        let mut next = first;
        for tree in trees {
            self.add(tree, next)?;
            next += tree.nodes();
        }
        Ok(())
    }

    /// Adds a tree whose nodes have the numbers from `first` on.
    fn add(&mut self, tree: &Tree<'_>, first: u32) -> Result<(), AllocError>
        requires range { IsInRange (shape tree.now) }
        requires room { first + nodes (shape tree.now) < 2 ^ 32 + 1 }
        ensures types { IfOk result (λ done. self.new.types.items ≡ self.old.types.items ++ told (the_correctness_of (shape tree.now)) ∷ []) }
        ensures numbers { IfOk result (λ done. self.new.numbers.items ≡ self.old.numbers.items ++ (first + nodes (shape tree.now) - 1) ∷ []) }
    {
        let ty = match correctness_of(tree) {
            Ok(ty) => Some(ty),
            Err(_) => None,
        };
        self.types.push(ty)?;
        self.numbers.push(first + (tree.nodes() - 1))?;
        Ok(())
    }
}
