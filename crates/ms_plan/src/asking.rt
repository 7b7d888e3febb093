//! Which keys to ask.
ghost use Rattle.std.specs.Prelude.{◌≡◌, [], Some, IfOk};
ghost use Rattle.def_tree.specs.InRange.{IsInRange};
ghost use Rattle.def_assets.specs.Assets.{Assets as Held};
ghost use Rattle.def_sane.specs.Unfit.{IsSane};
ghost use Rattle.def_plan.specs.Lengths.{Lengths, AreLengths};
ghost use Rattle.def_plan.specs.Plan.{Plan as Planned, plan_of, NoneIsExact, Suffices, WeighsAtMost, IsLeast, AsksListed, AsksNoneInVain, AsksInOrder, LengthsDecide};
ghost use Rattle.ms_tree.specs.Shape.{shape};
ghost use Rattle.ms_plan.specs.Estimates.{IsSound, table_of as the_table};
ghost use Rattle.ms_plan.specs.Scaffolding.Marked.{AreMarked, with_marks as the_marked};

use crate::estimate::Estimate;
use crate::marks::{Marks, differing, marked_pairs, push_signers};
use crate::planned::Plan;
use ms_chosen::{Choice, satisfaction};
use ms_held::{Assets, Signatures};
use ms_plan_file::{KeyLength, Keys};
use ms_tree::{Key, Tree};
use ms_work::Work;
use std::alloc::{AllocError, Global};

/// Which keys to ask for a signature, where all keys of an estimate can sign: those whose signatures the strict
/// satisfaction has with signatures of the estimated lengths, and what it weighs. `None` where no canonical satisfaction
/// exists even when all of them sign. The tree is sane, and the assets hold no signature. Refuses for want of memory alone.
///
/// Signatures of the plan's keys are enough, of whatever lengths, and whoever else signs: where none of theirs is longer
/// than estimated the strict satisfaction weighs no more than the plan. Where none is shorter, whatever listed keys sign,
/// no satisfaction that nobody can change weighs less. Each key is listed and asked once, in the order of the nodes and, in a `multi`, of its positions, and none in vain:
/// without its signature those of the plan's other keys satisfy nothing. Only the lengths decide.
pub fn plan<F: Fn(&Key) -> Option<u8>>(
    alloc: Global,
    tree: &Tree<'_>,
    assets: &Assets,
    estimate: &Estimate<'_, F>,
) -> Result<Option<Plan>, AllocError>
    requires in_range { IsInRange (shape tree.now) }
    requires sane { IsSane (shape tree.now) }
    requires no_pairs { assets.now.pairs ≡ [] }
    requires sound { IsSound F.Fn estimate.now }
    ensures choice { IfOk result (λ found. found ≡ plan_of (shape tree.now) assets.now (the_table estimate.now)) }
    ensures none { IfOk result (λ found. NoneIsExact (shape tree.now) assets.now (the_table estimate.now) found) }
    ensures suffices { IfOk result (λ found. (plan : Planned) → found ≡ Some plan → Suffices (shape tree.now) assets.now plan) }
    ensures weight { IfOk result (λ found. (plan : Planned) → found ≡ Some plan → WeighsAtMost (shape tree.now) assets.now (the_table estimate.now) plan) }
    ensures least { IfOk result (λ found. (plan : Planned) → found ≡ Some plan → IsLeast (shape tree.now) assets.now (the_table estimate.now) plan) }
    ensures listed { IfOk result (λ found. (plan : Planned) → found ≡ Some plan → AsksListed (the_table estimate.now) plan) }
    ensures none_in_vain { IfOk result (λ found. (plan : Planned) → found ≡ Some plan → AsksNoneInVain (shape tree.now) assets.now plan) }
    ensures in_order { IfOk result (λ found. (plan : Planned) → found ≡ Some plan → AsksInOrder (shape tree.now) plan) }
    ensures lengths { IfOk result (λ found. LengthsDecide (shape tree.now) assets.now (the_table estimate.now) found) }
{
    assets.are_assets();
    let lengths = estimate.answers(alloc)?;
    plan_of_table(alloc, tree, assets, lengths.as_slice())
}

/// The plan by a table.
fn plan_of_table(
    alloc: Global,
    tree: &Tree<'_>,
    assets: &Assets,
    table: &[KeyLength],
) -> Result<Option<Plan>, AllocError>
    requires in_range { IsInRange (shape tree.now) }
    requires sane { IsSane (shape tree.now) }
    requires lengths { AreLengths table.now }
    ensures { IfOk result (λ found. found ≡ plan_of (shape tree.now) assets.now table.now) }
{
    assets.are_assets();
    let first = with_marks(alloc, assets, Marks::Rising, table)?;
    let second = with_marks(alloc, assets, Marks::Falling, table)?;
    plan_by(alloc, tree, &first, &second)
}

/// The same locks and preimages, with marked signatures of the lengths of a table.
fn with_marks(
    alloc: Global,
    assets: &Assets,
    marks: Marks,
    table: &[KeyLength],
) -> Result<Assets, AllocError>
    requires { AreLengths table.now }
    ensures { IfOk result (λ made. made ≡ the_marked assets.now table.now marks) }
{
    assets.are_assets();
    let pairs = marked_pairs(alloc, marks, table)?;
    let signatures = Signatures::of_pairs(alloc, pairs)?;
    assets.with_signatures(alloc, signatures)
}

/// The plan by assets whose signatures have the estimated lengths, with the one marks and with the other: the strict
/// satisfactions with them have signatures of the same keys, and differ in these alone.
fn plan_by(
    alloc: Global,
    tree: &Tree<'_>,
    first: &Assets,
    second: &Assets,
) -> Result<Option<Plan>, AllocError>
    requires in_range { IsInRange (shape tree.now) }
    requires sane { IsSane (shape tree.now) }
    requires marked { (assets : Held) × (table : Lengths) × AreMarked assets table first.now second.now }
    ensures { IfOk result (λ found. (assets : Held) (table : Lengths) → AreMarked assets table first.now second.now → found ≡ plan_of (shape tree.now) assets table) }
{
    first.are_assets();
    let mut work = Work::new(alloc, tree)?;
    let Some(stack) = satisfaction(alloc, Choice::Strict, tree, first, &mut work)? else {
        return Ok(None);
    };
    let Some(other) = satisfaction(alloc, Choice::Strict, tree, second, &mut work)? else {
        return Ok(None);
    };
    let signatures = differing(alloc, &stack, &other)?;
    let mut keys = Vec::new(alloc);
    push_signers(tree, first, &signatures, &mut keys)?;
    let keys = Keys::from_vec(keys);
    let weight = stack.weight();
    Ok(Some(Plan { keys, weight }))
}
