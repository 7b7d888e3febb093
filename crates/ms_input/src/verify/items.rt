//! The items of a witness.

ghost use Rattle.std.specs.Prelude.{◌≡◌, [], IfOk, unwrap_or};
ghost use Rattle.def_psbt.specs.Forms.{witness_of};
ghost use Rattle.def_psbt.specs.Part.{first_many, first_string as the_first_string};
ghost use Rattle.ms_psbt.specs.Seen.{IsPart};
ghost use Rattle.ms_input.specs.Verdicts.{items_in};

use ms_psbt::{first_size, first_string};
use ms_script::Stack;
use std::alloc::{AllocError, Global};

/// The items of a witness, bottom first, as they lie in its bytes; none where these are no witness, whole. Refuses for want of
/// memory alone.
#[tactic(auto, unfolding(def_psbt::specs::Part::first_list, def_psbt::specs::Part::whole))]
pub fn witness_items<'a>(alloc: Global, bytes: &'a [u8]) -> Result<Vec<&'a [u8]>, AllocError>
    ensures { IfOk result (λ items. items_in items.items ≡ unwrap_or (witness_of bytes.entry.now) []) }
{
    let Some((count, rest)) = first_size(bytes) else {
        return Ok(Vec::new(alloc));
    };
    let Some((items, rest)) = first_items(alloc, count, rest)? else {
        return Ok(Vec::new(alloc));
    };
    if rest.is_empty() {
        Ok(items)
    } else {
        Ok(Vec::new(alloc))
    }
}

/// So many strings, each behind its size, and the bytes behind them.
fn first_items<'a>(
    alloc: Global,
    count: u64,
    bytes: &'a [u8],
) -> Result<Option<(Vec<&'a [u8]>, &'a [u8])>, AllocError>
    ensures { IfOk result (λ found. IsPart (λ part. (items_in part.0.items, part.1.now)) found (first_many the_first_string count bytes.entry.now)) }
{
    let mut items = Vec::new(alloc);
    let mut rest = bytes;
    'items: for _ in 0..count {
        let Some((item, after)) = first_string(rest) else {
            return Ok(None);
        };
        items.push(item)?;
        rest = after;
    }
    Ok(Some((items, rest)))
}

/// A stack of these items, bottom first. Refuses for want of memory alone.
pub fn stack_of(alloc: Global, items: &[&[u8]]) -> Result<Stack, AllocError>
    ensures { IfOk result (λ stack. stack ≡ items_in items.now) }
{
    let mut stack = Stack::new(alloc);
    'items: for item in items {
        stack.push(item)?;
    }
    Ok(stack)
}
