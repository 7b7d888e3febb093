//! The walk over a tree and a stack. What a fragment does with the top decides by which row it takes part, so nothing
//! is searched for.
ghost use Rattle.std.specs.Prelude.{◌≡◌, ◌≢◌, ◌+◌, ◌&&◌, ◌≤◌, nat_eq, Some, None, length, All, IfOk, if◌then◌else◌};
ghost use Rattle.def_tree.specs.InRange.{MOST_MEASURE, IsInRange};
ghost use Rattle.def_tree.specs.Size.{nodes, nodes_of};
ghost use Rattle.def_tree.specs.Tree as tree;
ghost use Rattle.def_tree.specs.declared.Two.TheVariants.{OrI};
ghost use Rattle.ms_audit_laws.specs.Walk.{trail_of};
ghost use Rattle.ms_audit.specs.Scaffolding.Walking.{IsReady, Walks, Counts};
ghost use Rattle.ms_interp.specs.Answering.{given_by};
ghost use Rattle.ms_tree.specs.Shape.{shape, shapes};

use crate::course::{Course, WalkStop};
use crate::parts::{ends, is_empty, of_and_or, of_two, of_wrap};
use crate::row::of_count;
use crate::spend::Spend;
use crate::trail::Trail;
use ms_oracle::SignatureChecker;
use ms_tree::{Tree, Two, View, Wrapper};
use std::alloc::{AllocError, Global};

impl<C: SignatureChecker> Spend<'_, C> {
    /// The steps by which the stack satisfies a tree, where it does.
    pub fn trail(&self, alloc: Global, tree: &Tree<'_>) -> Result<Option<Trail>, AllocError>
        requires in_range { IsInRange (shape tree.now) }
        requires sound { C.IsSound self.now.sigs.now }
        ensures { IfOk result (λ found. found ≡ trail_of (shape tree.now) (given_by (C.checker self.now.sigs.now) self.now.locks.now) self.now.stack.now) }
    {
        let mut course = Course {
            left: self.stack.len(),
            next: 0,
            steps: Vec::new(alloc),
        };
        match self.walk(tree, &mut course) {
            Ok(sat) => Ok(whole(sat, course)),
            Err(WalkStop::NoRow) => Ok(None),
            Err(WalkStop::Memory) => Err(AllocError),
        }
    }

    /// Walks over a tree, and answers whether it is satisfied.
    #[cycle(walk)]
    fn walk(&self, tree: &Tree<'_>, course: &mut Course) -> Result<bool, WalkStop>
        requires ready { IsReady self.now.stack.now (shape tree.now) course.old }
        requires sound { C.IsSound self.now.sigs.now }
        ensures { Walks (given_by (C.checker self.now.sigs.now) self.now.locks.now) self.now.stack.now (shape tree.now) course.old course.new result }
    {
        match tree.view() {
            View::Leaf(leaf) => {
                let row = self.leaf(leaf, &mut course.left)?;
                course.end(row)
            }
            View::AndOr(x, y, z) => self.and_or(x, y, z, course),
            View::Two(Two::OrI, x, z) => self.or_i(x, z, course),
            View::Two(kind, x, z) => self.two(kind, x, z, course),
            View::Thresh(k, children) => self.thresh(k, children, course),
            View::Multi(k, keys) => {
                let row = self.multi(k, keys, &mut course.left)?;
                course.end(row)
            }
            View::Wrap(wrapper, x) => self.wrap(wrapper, x, course),
        }
    }

    #[cycle(walk)]
    fn and_or(
        &self,
        x: &Tree<'_>,
        y: &Tree<'_>,
        z: &Tree<'_>,
        course: &mut Course,
    ) -> Result<bool, WalkStop>
        requires ready { IsReady self.now.stack.now (tree.and_or (shape x.now) (shape y.now) (shape z.now)) course.old }
        requires sound { C.IsSound self.now.sigs.now }
        ensures { Walks (given_by (C.checker self.now.sigs.now) self.now.locks.now) self.now.stack.now (tree.and_or (shape x.now) (shape y.now) (shape z.now)) course.old course.new result }
    {
        if self.walk(x, course)? {
            let sat = self.walk(y, course)?;
            course.skip(z);
            course.end(of_and_or(Some(true), Some(sat), None))
        } else {
            course.skip(y);
            let sat = self.walk(z, course)?;
            course.end(of_and_or(Some(false), None, Some(sat)))
        }
    }

    /// A fragment with two children other than `or_i`.
    #[cycle(walk)]
    fn two(
        &self,
        kind: Two,
        x: &Tree<'_>,
        z: &Tree<'_>,
        course: &mut Course,
    ) -> Result<bool, WalkStop>
        requires ready { IsReady self.now.stack.now (tree.two kind (shape x.now) (shape z.now)) course.old }
        requires sound { C.IsSound self.now.sigs.now }
        requires not_or_i { kind ≢ OrI }
        ensures { Walks (given_by (C.checker self.now.sigs.now) self.now.locks.now) self.now.stack.now (tree.two kind (shape x.now) (shape z.now)) course.old course.new result }
    {
        let first = self.walk(x, course)?;
        if ends(kind, first) {
            course.skip(z);
            return course.end(of_two(kind, None, Some(first), None));
        }
        let second = self.walk(z, course)?;
        course.end(of_two(kind, None, Some(first), Some(second)))
    }

    #[cycle(walk)]
    fn or_i(&self, x: &Tree<'_>, z: &Tree<'_>, course: &mut Course) -> Result<bool, WalkStop>
        requires ready { IsReady self.now.stack.now (tree.two OrI (shape x.now) (shape z.now)) course.old }
        requires sound { C.IsSound self.now.sigs.now }
        ensures { Walks (given_by (C.checker self.now.sigs.now) self.now.locks.now) self.now.stack.now (tree.two OrI (shape x.now) (shape z.now)) course.old course.new result }
    {
        if self.select(&mut course.left)? {
            let sat = self.walk(x, course)?;
            course.skip(z);
            course.end(of_two(Two::OrI, Some(true), Some(sat), None))
        } else {
            course.skip(x);
            let sat = self.walk(z, course)?;
            course.end(of_two(Two::OrI, Some(false), None, Some(sat)))
        }
    }

    #[cycle(walk)]
    fn thresh(&self, k: u64, children: &[Tree<'_>], course: &mut Course) -> Result<bool, WalkStop>
        requires children { All (λ x. IsInRange (shape x)) children.now }
        requires room { course.old.next + nodes (tree.thresh k (shapes children.now)) ≤ MOST_MEASURE }
        requires left { course.old.left ≤ length self.now.stack.now }
        requires sound { C.IsSound self.now.sigs.now }
        ensures { Walks (given_by (C.checker self.now.sigs.now) self.now.locks.now) self.now.stack.now (tree.thresh k (shapes children.now)) course.old course.new result }
    {
        let count = self.count(children, course)?;
        course.end(of_count(count == k, count == 0))
    }

    /// How many of the children of a threshold are satisfied.
    #[cycle(walk)]
    fn count(&self, children: &[Tree<'_>], course: &mut Course) -> Result<u64, WalkStop>
        requires children { All (λ x. IsInRange (shape x)) children.now }
        requires room { course.old.next + nodes_of (shapes children.now) ≤ MOST_MEASURE }
        requires left { course.old.left ≤ length self.now.stack.now }
        requires sound { C.IsSound self.now.sigs.now }
        ensures { Counts (given_by (C.checker self.now.sigs.now) self.now.locks.now) self.now.stack.now (shapes children.now) course.old course.new result }
    {
        let mut count = 0;
        for child in children {
            if self.walk(child, course)? {
                count += 1;
            }
        }
        Ok(count)
    }

    #[cycle(walk)]
    fn wrap(&self, wrapper: Wrapper, x: &Tree<'_>, course: &mut Course) -> Result<bool, WalkStop>
        requires ready { IsReady self.now.stack.now (tree.wrap wrapper (shape x.now)) course.old }
        requires sound { C.IsSound self.now.sigs.now }
        ensures { Walks (given_by (C.checker self.now.sigs.now) self.now.locks.now) self.now.stack.now (tree.wrap wrapper (shape x.now)) course.old course.new result }
    {
        let item = self.choice(wrapper, &mut course.left)?;
        if is_empty(item) {
            course.skip(x);
            return course.end(of_wrap(wrapper, item, None));
        }
        let sat = self.walk(x, course)?;
        course.end(of_wrap(wrapper, item, Some(sat)))
    }
}

/// The steps of a satisfied root, where nothing of the stack is left.
fn whole(sat: bool, course: Course) -> Option<Trail>
    ensures { result ≡ (if sat && nat_eq course.left 0 then Some course.steps.items else None) }
{
    if sat && course.left == 0 {
        Some(Trail::from_vec(course.steps))
    } else {
        None
    }
}
