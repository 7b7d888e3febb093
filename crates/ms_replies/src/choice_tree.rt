//! A tree of which a satisfaction is chosen.
ghost use Rattle.std.specs.Prelude.{◌≡◌, None, IfOk, IfErr};
ghost use Rattle.def_tree.specs.InRange.{IsInRange};
ghost use Rattle.ms_tree.specs.Shape.{shape};
ghost use Rattle.ms_sane.specs.Misfits.{IsMisfit};
ghost use Rattle.ms_sane.specs.Same.{IsSame};
ghost use Rattle.ms_report.specs.Bounds.{bounds_of as the_bounds_of};
ghost use Rattle.def_answer.specs.Satisfy.{chosen_by, reason_by};
ghost use Rattle.ms_replies.specs.ChoiceTrees.{valid_in, tree_in, chosen_in};

use def_choice::Choice;
use def_sane::Rules;
use ms_report::{Bounds, bounds_of};
use ms_sane::{Misfit, SaneTree, ValidTree};
use ms_tree::Tree;
use std::alloc::Global;

/// A tree of which a satisfaction is chosen.
#[derive(Drop)]
pub enum ChoiceTree<'a> {
    /// A sane one, of which the strict satisfaction is chosen.
    Strict(SaneTree<'a>),
    /// A valid one, of which the cheapest satisfaction is chosen.
    Cheapest(ValidTree<'a>),
}

impl<'a> ChoiceTree<'a> {
    /// A tree that passes what its choice asks, or the first reason against it.
    pub fn new(
        alloc: Global,
        choice: Choice,
        rules: Rules,
        tree: Tree<'a>,
    ) -> Result<ChoiceTree<'a>, Misfit>
        requires { IsInRange (shape tree) }
        ensures tree { IfOk result (λ c. tree_in c ≡ shape tree.entry) }
        ensures rules { IfOk result (λ c. (valid_in c).rules ≡ rules) }
        ensures passed { IfOk result (λ c. reason_by choice rules (shape tree.entry) ≡ None) }
        ensures chosen { IfOk result (λ c. chosen_in c ≡ chosen_by choice) }
        ensures unfit { IfErr result (IsMisfit (reason_by choice rules) (shape tree.entry)) }
    {
        match choice {
            Choice::Strict => match SaneTree::new(alloc, tree, rules) {
                Ok(sane) => Ok(ChoiceTree::Strict(sane)),
                Err(misfit) => Err(misfit),
            },
            Choice::Cheapest => match ValidTree::new(alloc, tree, rules) {
                Ok(valid) => Ok(ChoiceTree::Cheapest(valid)),
                Err(misfit) => Err(misfit),
            },
        }
    }

    /// The tree. Takes no memory.
    pub fn tree(&self) -> Tree<'a>
        ensures tree { shape result ≡ tree_in self.now }
        ensures in_range { IsInRange (shape result) }
    {
        match self {
            ChoiceTree::Strict(sane) => sane.valid.tree,
            ChoiceTree::Cheapest(valid) => valid.tree,
        }
    }

    /// What is told of its limits. Takes no memory.
    pub fn bounds(&mut self) -> Bounds
        ensures bounds { result ≡ the_bounds_of (valid_in self.old).rules (tree_in self.old) }
        ensures same { IsSame (valid_in self.old) (valid_in self.new) }
    {
        match self {
            ChoiceTree::Strict(sane) => bounds_of(&mut sane.valid),
            ChoiceTree::Cheapest(valid) => bounds_of(valid),
        }
    }
}
