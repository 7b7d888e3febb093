//! The final witness of an input.

ghost use Rattle.std.specs.Prelude.{◌≡◌, Some, IfOk};
ghost use Rattle.def_choice.specs.Strict.{strict};
ghost use Rattle.def_emit.specs.Emit.{script_of};
ghost use Rattle.def_promises.specs.Accepted.{Unchangeable};
ghost use Rattle.def_sane.specs.Unfit.{IsSane};
ghost use Rattle.def_script.specs.Witness.{items_text, witness_text};
ghost use Rattle.def_tree.specs.InRange.{IsInRange};
ghost use Rattle.ms_input.specs.Witnesses.{IsReplayed};
ghost use Rattle.ms_tree.specs.Shape.{shape};

use ms_bytes::{Blob, Stack};
use ms_held::Assets;
use ms_tree::Tree;
use ms_witness::{stack_bytes, witness_bytes};
use std::alloc::{AllocError, Global};

/// The final witness of an input: the strict satisfaction of its miniscript, bottom first, and its witness script, which is the
/// miniscript's, as the last item. Refuses for want of memory alone.
///
/// The interpreter accepts it under the script's program, where the signatures of the assets are good, whatever others are,
/// and with their locks; and nobody can change it.
pub fn final_witness(
    alloc: Global,
    tree: &Tree<'_>,
    script: &[u8],
    assets: &Assets,
    stack: &Stack,
) -> Result<Blob, AllocError>
    requires in_range { IsInRange (shape tree.now) }
    requires sane { IsSane (shape tree.now) }
    requires script { script_of (shape tree.now) ≡ script.now }
    requires chosen { strict (shape tree.now) assets.now ≡ Some stack.now }
    ensures witness { IfOk result (λ witness. witness ≡ witness_text stack.now script.now) }
    ensures accepted { IfOk result (λ witness. IsReplayed assets.now script.now witness) }
    ensures unchangeable { Unchangeable (shape tree.now) assets.now stack.now }
{
    assets.are_assets();
    witness_bytes(alloc, stack, script)
}

/// The final witness of an input that spends the hash of a public key: the strict satisfaction of its miniscript alone, which is a
/// signature and the key. Nobody can change it. Refuses for want of memory alone.
pub fn key_witness(
    alloc: Global,
    tree: &Tree<'_>,
    assets: &Assets,
    stack: &Stack,
) -> Result<Blob, AllocError>
    requires in_range { IsInRange (shape tree.now) }
    requires sane { IsSane (shape tree.now) }
    requires chosen { strict (shape tree.now) assets.now ≡ Some stack.now }
    ensures witness { IfOk result (λ witness. witness ≡ items_text stack.now) }
    ensures unchangeable { Unchangeable (shape tree.now) assets.now stack.now }
{
    assets.are_assets();
    stack_bytes(alloc, stack)
}
