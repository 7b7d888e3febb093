//! How far a walk over a tree and a stack has come.
ghost use Rattle.std.specs.Prelude.{◌≡◌, ◌+◌, ◌<◌, ◌≤◌};
ghost use Rattle.def_tree.specs.InRange.{MOST_MEASURE, IsInRange};
ghost use Rattle.def_tree.specs.Size.{nodes};
ghost use Rattle.ms_audit.specs.Scaffolding.Walking.{verdict_of, Ends, Passes};
ghost use Rattle.ms_audit.specs.declared.course.WalkStop.TheVariants.{Memory};
ghost use Rattle.ms_tree.specs.Shape.{shape};

use crate::row::Row;
use def_audit::Step;
use ms_tree::Tree;
use std::alloc::AllocFailed;

/// Why a walk finds no steps.
#[derive(Clone, Copy)]
pub enum WalkStop {
    /// No row takes the stack.
    NoRow,
    /// Memory was wanting.
    Memory,
}

impl<T: Drop> From<AllocFailed<T>> for WalkStop {
    ghost from_gives = { λ _ stop. stop ≡ Memory };

    fn from(_error: AllocFailed<T>) -> WalkStop {
        WalkStop::Memory
    }
}

/// A place on a walk.
#[derive(Drop)]
pub struct Course {
    /// How many items of the stack are left, from the bottom.
    pub left: usize,
    /// The number of the next node.
    pub next: u32,
    /// The steps so far.
    pub steps: Vec<Step>,
}

impl Course {
    /// Adds a node's own step, by the row that the stack takes, and answers whether it satisfies the node. There is
    /// `NoRow` where it takes none.
    pub fn end(&mut self, row: Option<Row>) -> Result<bool, WalkStop>
        requires { self.old.next < MOST_MEASURE }
        ensures { Ends (verdict_of row) self.old self.new result }
    {
        let Some(row) = row else {
            return Err(WalkStop::NoRow);
        };
        self.steps.push(Step {
            node: self.next,
            sat: row.sat,
            extra: row.extra,
        })?;
        self.next += 1;
        Ok(row.sat)
    }

    /// Passes over a child that takes no part.
    pub fn skip(&mut self, child: &Tree<'_>)
        requires in_range { IsInRange (shape child.now) }
        requires room { self.old.next + nodes (shape child.now) ≤ MOST_MEASURE }
        ensures { Passes self.old self.new (self.old.next + nodes (shape child.now)) }
    {
        self.next += child.nodes();
    }
}
