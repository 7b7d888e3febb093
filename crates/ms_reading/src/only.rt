//! The one tree that may be a Script's.
ghost use Rattle.std.specs.Prelude.{◌≡◌, Ok, None, IfOk, IfSome};
ghost use Rattle.def_decode.specs.Decoded.{IsReading};
ghost use Rattle.def_tree.specs.InRange.{IsInRange};
ghost use Rattle.def_tree.specs.Tree.{Tree as TheTree};
ghost use Rattle.ms_tree.specs.Shape.{shape};
ghost use Rattle.ms_reading.specs.Candidates.{IsOnly};
ghost use Rattle.ms_reading.specs.Scaffolding.Decoding.{MayBe};
ghost use Rattle.ms_reading.specs.Scaffolding.Parts.{made};

use crate::codes::read_codes;
use crate::found::{hash_keys, wanted_keys};
use crate::part::Part;
use crate::read::read_back;
use bumpalo::Bump;
use ms_tree::{Key, Tree};
use std::alloc::{AllocError, Global};

/// The most bytes of a Script (Bitcoin Core: `MAX_STANDARD_P2WSH_SCRIPT_SIZE`).
const MOST_SIZE: usize = 3_600;

/// The only tree in range that can be decoded of these bytes with these keys, whether it is valid and has this Script being
/// left to be seen; or none where no valid miniscript, whose `pk_h` keys all stand in the list, has these bytes as its Script. The Script of
/// a `pk_h` holds a HASH160 alone: it becomes the first key of the list with it. Want of memory is its only refusal.
pub fn candidate<'a>(
    alloc: Global,
    arena: &'a Bump<Global>,
    script: &[u8],
    keys: &[Key],
) -> Result<Option<Tree<'a>>, AllocError>
    ensures in_range { IfOk result (λ o. IfSome o (λ tree. IsInRange (shape tree))) }
    ensures only { IfOk result (λ o. IfSome o (λ tree. IsOnly keys.now script.now (shape tree))) }
    ensures none { result ≡ Ok None → (t : TheTree) → IsReading keys.now script.now t → ⊥ }
{
    match read(alloc, arena, script, keys)? {
        Some(part) => Ok(Some(part.tree)),
        None => Ok(None),
    }
}

/// The one tree in range that may be decoded, where there is one.
fn read<'a>(
    alloc: Global,
    arena: &'a Bump<Global>,
    script: &[u8],
    keys: &[Key],
) -> Result<Option<Part<'a>>, AllocError>
    ensures { IfOk result (λ o. MayBe keys.now script.now (made o)) }
{
    if script.len() > MOST_SIZE {
        return Ok(None);
    }
    let Some(codes) = read_codes(alloc, script)? else {
        return Ok(None);
    };
    let hashed = hash_keys(alloc, wanted_keys(&codes, keys))?;
    let part = read_back(alloc, arena, &hashed, codes)?;
    Ok(part)
}
