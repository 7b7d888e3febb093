//! The plan of an input, and the keys of it that have no signature.

ghost use Rattle.std.specs.Prelude.{◌≡◌, not, is_some, IfOk};
ghost use Rattle.def_assets.specs.Assets.{sig_of};
ghost use Rattle.def_tree.specs.InRange.{IsInRange};
ghost use Rattle.def_sane.specs.Unfit.{IsSane};
ghost use Rattle.def_spend.specs.Asking.{plan_with as the_plan_with, unsigned_keys as the_unsigned_keys};
ghost use Rattle.ms_input.specs.Asked.{asked_plan as the_asked_plan};
ghost use Rattle.ms_tree.specs.Shape.{shape};

use lengths::lengths_of;
use ms_held::Assets;
use ms_plan::{Estimate, Keys, Plan, length_in, plan};
use ms_tree::{Key, Tree};
use std::alloc::{AllocError, Global};

mod lengths;

/// Which keys to ask for a signature besides those that the assets hold, and what the satisfaction weighs at most: the plan of
/// a sane tree under the locks and the preimages of the assets, where each key of the tree can sign, with the length of the
/// signature that it has there and with 73 bytes where it has none; of its keys those that have none. `None` where no
/// canonical satisfaction exists even when all keys sign. Refuses for want of memory alone.
pub fn asked_plan(
    alloc: Global,
    tree: &Tree<'_>,
    assets: &Assets,
) -> Result<Option<Plan>, AllocError>
    requires in_range { IsInRange (shape tree.now) }
    requires sane { IsSane (shape tree.now) }
    ensures { IfOk result (λ found. found ≡ the_asked_plan (shape tree.now) assets.now) }
{
    match plan_with(alloc, tree, assets)? {
        Some(plan) => {
            let keys = unsigned_keys(alloc, assets, plan.keys.as_slice())?;
            Ok(Some(Plan {
                keys,
                weight: plan.weight,
            }))
        }
        None => Ok(None),
    }
}

/// The plan of a sane tree where each of its keys can sign.
fn plan_with(alloc: Global, tree: &Tree<'_>, assets: &Assets) -> Result<Option<Plan>, AllocError>
    requires in_range { IsInRange (shape tree.now) }
    requires sane { IsSane (shape tree.now) }
    ensures { IfOk result (λ found. found ≡ the_plan_with (shape tree.now) assets.now) }
{
    assets.are_assets();
    let table = lengths_of(alloc, tree, assets)?;
    let others = assets.without_signatures(alloc)?;
    let lengths = table.as_slice();
    let estimate = Estimate::new(lengths, |key: &Key| length_in(lengths, key));
    plan(alloc, tree, &others, &estimate)
}

/// Those of these keys that have no signature.
fn unsigned_keys(alloc: Global, assets: &Assets, keys: &[Key]) -> Result<Keys, AllocError>
    ensures { IfOk result (λ unsigned. unsigned ≡ the_unsigned_keys assets.now keys.now) }
{
    let mut unsigned = Vec::new(alloc);
    for key in keys {
        if is_unsigned(assets, key) {
            unsigned.push(*key)?;
        }
    }
    Ok(Keys::from_vec(unsigned))
}

fn is_unsigned(assets: &Assets, key: &Key) -> bool
    ensures { result ≡ not (is_some (sig_of assets.now key.now)) }
{
    assets.sig_of(key).is_none()
}
