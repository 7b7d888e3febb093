//! The limits of a miniscript (BIP 379, resource limits).
ghost use Rattle.std.specs.Prelude.{◌≡◌, ◌*◌, ◌≤◌, IsOk, vec_len};
ghost use Rattle.def_tree.specs.InRange.{IsInRange, measure};
ghost use Rattle.def_types.specs.Correctness.{correctness_of};
ghost use Rattle.def_limits.specs.Limits.{AreLimits};
ghost use Rattle.def_limits.specs.Scaffolding.Most.{number_of, most_sat, limits_of};
ghost use Rattle.ms_tree.specs.Shape.{shape};
ghost use Rattle.ms_sane.specs.Scaffolding.Takes.{IsLight};
ghost use Rattle.ms_sane.specs.Scaffolding.Short.{IsExtent};

use crate::most::most;
use crate::takes::Takes;
use def_sane::Limits;
use ms_extent::{Extent, script_extent};
use ms_tree::Tree;
use ms_work::Work;

/// The limits of a tree: the length of its Script in bytes, its opcodes with the keys of `multi`
/// fragments that are executed, and the items and the weight of its satisfactions, each the greatest over
/// all formal satisfactions (BIP 379, resource limits). Items and weight are 0 where there is none.
pub fn limits(tree: &Tree<'_>, work: &mut Work) -> Limits
    requires in_range { IsInRange (shape tree.now) }
    requires typed { IsOk (correctness_of (shape tree.now)) }
    requires room { 4 * measure (shape tree.now) ≤ vec_len work.old.slots }
    ensures limits { AreLimits (shape tree.now) result }
    ensures room { vec_len work.new.slots ≡ vec_len work.old.slots }
{
    limits_from(script_extent(tree), tree, work)
}

/// The same of a tree whose Script comes to this.
pub fn limits_from(extent: Extent, tree: &Tree<'_>, work: &mut Work) -> Limits
    requires extent { IsExtent (shape tree.now) extent }
    requires in_range { IsInRange (shape tree.now) }
    requires typed { IsOk (correctness_of (shape tree.now)) }
    requires room { 4 * measure (shape tree.now) ≤ vec_len work.old.slots }
    ensures limits { result ≡ limits_of (shape tree.now) }
    ensures room { vec_len work.new.slots ≡ vec_len work.old.slots }
{
    let taken = most_taken(tree, work);
    Limits {
        size: extent.bytes,
        ops: extent.opcodes + taken.keys,
        items: taken.items,
        weight: taken.weight,
    }
}

/// What the formal satisfactions of a tree take at most, each number by itself, or nothing where it has
/// none.
fn most_taken(tree: &Tree<'_>, work: &mut Work) -> Takes
    requires in_range { IsInRange (shape tree.now) }
    requires typed { IsOk (correctness_of (shape tree.now)) }
    requires room { 4 * measure (shape tree.now) ≤ vec_len work.old.slots }
    ensures items { result.items ≡ number_of (λ t. t.items) (most_sat (shape tree.now)) }
    ensures weight { result.weight ≡ number_of (λ t. t.weight) (most_sat (shape tree.now)) }
    ensures keys { result.keys ≡ number_of (λ t. t.keys) (most_sat (shape tree.now)) }
    ensures light { IsLight result }
    ensures room { vec_len work.new.slots ≡ vec_len work.old.slots }
{
    most(tree, &mut work.slots).sat.unwrap_or(Takes::NOTHING)
}
