//! The cheapest satisfaction of a valid tree.
ghost use Rattle.std.specs.Prelude.{◌≡◌, ◌↔◌, List, None, IfOk};
ghost use Rattle.def_script.specs.Bytes.{Bytes};
ghost use Rattle.def_satisfaction.specs.Satisfaction.{Sat};
ghost use Rattle.def_choice.specs.Lightest.{IsLightest};
ghost use Rattle.def_choice.specs.Cheapest.{cheapest as the_cheapest};
ghost use Rattle.def_promises.specs.Acceptance.{Inversion};
ghost use Rattle.def_promises.specs.Letters.{Letters};
ghost use Rattle.ms_sane.specs.Same.{IsSame};
ghost use Rattle.ms_tree.specs.Shape.{shape};

use ms_bytes::Stack;
use ms_chosen::{Choice, satisfaction};
use ms_held::Assets;
use ms_sane::ValidTree;
use std::alloc::{AllocError, Global};

/// The cheapest canonical satisfaction of a valid tree with these assets: at each fragment the option of least
/// weight, and of several of that weight the first one. `None` where there is no canonical satisfaction.
/// So what the interpreter accepts of it is a satisfaction, and the letters of its types and of its nodes' say of all stacks what
/// BIP 379 says of them.
pub fn cheapest(
    alloc: Global,
    valid: &mut ValidTree<'_>,
    assets: &Assets,
) -> Result<Option<Stack>, AllocError>
    ensures choice { IfOk result (λ found. found ≡ the_cheapest (shape valid.old.tree) assets.now) }
    ensures lightest { IfOk result (λ found. IsLightest (Sat (shape valid.old.tree) assets.now) found) }
    ensures none { IfOk result (λ found. (found ≡ None) ↔ ((stack : List Bytes) → Sat (shape valid.old.tree) assets.now stack → ⊥)) }
    ensures inversion { Inversion (shape valid.old.tree) }
    ensures letters { Letters (shape valid.old.tree) }
    ensures same { IsSame valid.old valid.new }
{
    assets.are_assets();
    let tree = valid.tree;
    satisfaction(alloc, Choice::Cheapest, &tree, assets, &mut valid.work)
}
