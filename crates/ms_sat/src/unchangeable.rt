//! The strict satisfaction of a miniscript, which nobody can change.
ghost use Rattle.std.specs.Prelude.{◌≡◌, ◌↔◌, List, Some, None, IfOk};
ghost use Rattle.def_script.specs.Bytes.{Bytes};
ghost use Rattle.def_satisfaction.specs.Satisfaction.{Sat};
ghost use Rattle.def_choice.specs.Strict.{strict as the_strict};
ghost use Rattle.def_choice.specs.Tight.{Tight};
ghost use Rattle.def_choice.specs.NonMalleable.{NonMalleable};
ghost use Rattle.def_promises.specs.Accepted.{HasNothingToAccept, Unchangeable};
ghost use Rattle.ms_sat.specs.Strictness.{IsLightestUnchanged};
ghost use Rattle.ms_sane.specs.Same.{IsSame};
ghost use Rattle.ms_tree.specs.Shape.{shape};

use ms_bytes::Stack;
use ms_chosen::{Choice, satisfaction};
use ms_held::Assets;
use ms_sane::SaneTree;
use std::alloc::{AllocError, Global};

/// The strict satisfaction of a sane tree with these assets, which nobody without further signatures can
/// change: at each fragment an option that needs no signature is taken before one that does, every child
/// of a threshold that needs none is satisfied, and all else is as in the cheapest satisfaction. `None`
/// where there is no canonical satisfaction. Every other stack that is accepted in the same locks passes a check of a
/// signature that this one's run doesn't, or has a preimage that isn't the known one, or another key with the hash of a key
/// of the tree.
pub fn strict(
    alloc: Global,
    sane: &mut SaneTree<'_>,
    assets: &Assets,
) -> Result<Option<Stack>, AllocError>
    ensures choice { IfOk result (λ found. found ≡ the_strict (shape sane.old.valid.tree) assets.now) }
    ensures sat { IfOk result (λ found. (stack : List Bytes) → found ≡ Some stack → Sat (shape sane.old.valid.tree) assets.now stack) }
    ensures none { IfOk result (λ found. (found ≡ None) ↔ ((stack : List Bytes) → Sat (shape sane.old.valid.tree) assets.now stack → ⊥)) }
    ensures non_malleable { let t = shape sane.old.valid.tree in IfOk result (λ found. (stack : List Bytes) → found ≡ Some stack → NonMalleable t assets.now stack × Unchangeable t assets.now stack) }
    ensures nothing { IfOk result (λ found. found ≡ None → HasNothingToAccept (shape sane.old.valid.tree) assets.now) }
    ensures lightest { IfOk result (IsLightestUnchanged (shape sane.old.valid.tree) assets.now) }
    // Of every canonical satisfaction, whatever is found: nobody can change it exactly where it is tight.
    ensures tight { let t = shape sane.old.valid.tree in (stack : List Bytes) → Sat t assets.now stack → NonMalleable t assets.now stack ↔ Tight t assets.now stack }
    ensures tight_unchangeable { (stack : List Bytes) → Tight (shape sane.old.valid.tree) assets.now stack → Unchangeable (shape sane.old.valid.tree) assets.now stack }
    ensures same { IsSame sane.old.valid sane.new.valid }
{
    assets.are_assets();
    let valid = &mut sane.valid;
    let tree = valid.tree;
    satisfaction(alloc, Choice::Strict, &tree, assets, &mut valid.work)
}
