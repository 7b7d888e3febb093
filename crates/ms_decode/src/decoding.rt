//! A Script read back as a miniscript.
ghost use Rattle.std.specs.Prelude.{◌≡◌, ◌↔◌, IsTrue, Ok, None, IfOk, IfSome};
ghost use Rattle.def_decode.specs.Alike.{IsLikeEach};
ghost use Rattle.def_decode.specs.Decoded.{IsReading, IsDecoded};
ghost use Rattle.def_emit.specs.Emit.{script_of};
ghost use Rattle.def_sane.specs.declared.Rules.TheVariants.{Policy};
ghost use Rattle.def_tree.specs.InRange.{IsInRange};
ghost use Rattle.def_tree.specs.Tree.{Tree as TheTree};
ghost use Rattle.ms_tree.specs.Shape.{shape};

use bumpalo::Bump;
use ms_emit::emit;
use ms_reading::{candidate, is_spelling_of};
use ms_sane::{Misfit, Rules, ValidTree};
use ms_tree::{Key, Tree};
use std::alloc::{AllocError, Global};

/// The valid miniscript whose Script these bytes are, with no `and_v` under `c`, `n` or `v` and none as the first child of
/// an `and_v` or an `and_b`; or none exactly where no valid miniscript, whose `pk_h` keys all stand in the list, has these
/// bytes as its Script (Bitcoin Core: `DecodeScript`). The Script of a `pk_h` holds a HASH160 alone: it becomes the first
/// key of the list with it. Want of memory is its only refusal.
///
/// What is given has the type, the limits and the malleability properties of every miniscript with these bytes as its
/// Script, and is sane exactly where one is whose `pk_h` keys are the first ones of the list too.
pub fn decode<'a>(
    alloc: Global,
    arena: &'a Bump<Global>,
    script: &[u8],
    keys: &[Key],
) -> Result<Option<ValidTree<'a>>, AllocError>
    ensures some { IfOk result (λ o. IfSome o (λ v. IsDecoded keys.now script.now (shape v.tree))) }
    ensures rules { IfOk result (λ o. IfSome o (λ v. v.rules ≡ Policy)) }
    ensures alike { IfOk result (λ o. IfSome o (λ v. IsLikeEach keys.now script.now (shape v.tree))) }
    ensures none { result ≡ Ok None → (t : TheTree) → IsReading keys.now script.now t → ⊥ }
{
    let Some(tree) = candidate(alloc, arena, script, keys)? else {
        return Ok(None);
    };
    let valid = match ValidTree::new(alloc, tree, Rules::Policy) {
        Ok(valid) => valid,
        Err(Misfit::Unfit(_)) => return Ok(None),
        Err(Misfit::Memory) => return Err(AllocError),
    };
    if is_script_of(alloc, &valid.tree, script)? {
        Ok(Some(valid))
    } else {
        Ok(None)
    }
}

/// Whether these bytes are the Script of a tree.
fn is_script_of(alloc: Global, tree: &Tree<'_>, script: &[u8]) -> Result<bool, AllocError>
    requires { IsInRange (shape tree.now) }
    ensures { IfOk result (λ is. IsTrue is ↔ (script_of (shape tree.now) ≡ script.now)) }
{
    let instructions = emit(alloc, tree)?;
    Ok(is_spelling_of(script, instructions.instrs()))
}
