//! The height of a tree.
ghost use Rattle.std.specs.Prelude.{◌≡◌, ◌*◌, ◌≤◌, IsOk, vec_len};
ghost use Rattle.def_tree.specs.InRange.{IsInRange, measure};
ghost use Rattle.def_types.specs.Correctness.{correctness_of};
ghost use Rattle.def_height.specs.Height.{IsHeight};
ghost use Rattle.def_height.specs.Scaffolding.Highest.{height_of_option, highest_sat};
ghost use Rattle.ms_tree.specs.Shape.{shape};

use crate::heights::heights;
use ms_tree::Tree;
use ms_work::Work;

/// The height of a tree, in elements: how many the main stack and the alternative stack hold together at
/// most while a formal satisfaction of the tree is run, or 0 where it has none (Bitcoin Core,
/// MAX_STACK_SIZE: they may hold 1,000). The tree has a correctness type. Takes no memory, and leaves the
/// number of slots.
pub fn height(tree: &Tree<'_>, work: &mut Work) -> u64
    requires in_range { IsInRange (shape tree.now) }
    requires typed { IsOk (correctness_of (shape tree.now)) }
    requires room { 4 * measure (shape tree.now) ≤ vec_len work.old.slots }
    ensures height { IsHeight (shape tree.now) result }
    ensures room { vec_len work.new.slots ≡ vec_len work.old.slots }
{
    highest(tree, work)
}

fn highest(tree: &Tree<'_>, work: &mut Work) -> u64
    requires in_range { IsInRange (shape tree.now) }
    requires typed { IsOk (correctness_of (shape tree.now)) }
    requires room { 4 * measure (shape tree.now) ≤ vec_len work.old.slots }
    ensures height { result ≡ height_of_option (highest_sat (shape tree.now)) }
    ensures room { vec_len work.new.slots ≡ vec_len work.old.slots }
{
    match heights(tree, &mut work.slots).sat {
        Some(sat) => sat.height,
        None => 0,
    }
}
