//! Working room that calls are lent.
ghost use Rattle.std.specs.Prelude.{◌≡◌, ◌*◌, IfOk, vec_len};
ghost use Rattle.def_tree.specs.InRange.{IsInRange, measure};
ghost use Rattle.ms_tree.specs.Shape.{shape};

use ms_choice::Slot;
use ms_tree::Tree;
use std::alloc::{AllocError, Global};

/// Working room for a tree, made once, so that calls that are lent it take no memory. Such a call may
/// write its slots, and leaves their number as it was. A slot holds what is known of one child of a
/// threshold, or half of a key: two or three numbers, and which node holds it.
#[derive(Drop)]
pub struct Work {
    /// The slots, four for each node and each key of a `multi`.
    pub slots: Vec<Slot>,
}

impl Work {
    /// Room for this tree: four slots for each node and each key of a `multi`.
    pub fn new(alloc: Global, tree: &Tree<'_>) -> Result<Work, AllocError>
        requires { IsInRange (shape tree.now) }
        ensures { IfOk result (λ work. vec_len work.slots ≡ 4 * measure (shape tree.now)) }
    {
        let empty = Slot {
            first: 0,
            place: 0,
            second: 0,
            third: 0,
        };
        let slots = vec![in alloc; empty; 4 * tree.measure() as usize]?;
        Ok(Work { slots })
    }
}
