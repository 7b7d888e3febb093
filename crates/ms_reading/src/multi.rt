//! What stands before the arguments of a `multi`.
ghost use Rattle.std.specs.Prelude.{◌≡◌, List, reverse, IfOk};
ghost use Rattle.ms_decode_laws.specs.Scaffolding.Reader.{count_step, keys_step};
ghost use Rattle.ms_reading.specs.declared.frame.Frame.{Frame as AFrame};
ghost use Rattle.ms_reading.specs.Scaffolding.States.{frames_of, state_of, instruction_of};

use crate::codes::Code;
use crate::frame::Frame;
use crate::leaves::{numeral, read_key};
use crate::settle::settle;
use crate::signers::Signers;
use crate::want::Want;
use bumpalo::Bump;
use ms_script::MAX_PUBKEYS_PER_MULTISIG;
use std::alloc::{AllocError, Global};

/// The most keys of a `multi`.
const MOST_KEYS: u64 = MAX_PUBKEYS_PER_MULTISIG as u64;

/// The number of keys.
pub fn key_count<'a, 's>(alloc: Global, code: Code<'s>) -> Result<Option<Want<'a, 's>>, AllocError>
    ensures { IfOk result (λ o. (fs : List AFrame) → state_of o fs ≡ count_step (frames_of fs) (instruction_of code.entry)) }
{
    let Code::Push(bytes) = code else {
        return Ok(None);
    };
    let Some(count) = numeral(bytes) else {
        return Ok(None);
    };
    if count.value < 1 {
        return Ok(None);
    }
    if count.value > MOST_KEYS {
        return Ok(None);
    }
    let signers = Signers::none(alloc, count.value)?;
    Ok(Some(Want::Keys(signers)))
}

/// A further key, or the number of signatures.
pub fn further_key<'a, 's>(
    arena: &'a Bump<Global>,
    signers: Signers,
    frames: &mut Vec<Frame<'a>>,
    code: Code<'s>,
) -> Result<Option<Want<'a, 's>>, AllocError>
    ensures { IfOk result (λ o. state_of o frames.new.items ≡ keys_step signers.left (reverse signers.keys.items) (frames_of frames.old.items) (instruction_of code.entry)) }
{
    let Code::Push(bytes) = code else {
        return Ok(None);
    };
    if signers.left > 0 {
        let Some(key) = read_key(bytes) else {
            return Ok(None);
        };
        return Ok(Some(Want::Keys(signers.with(key)?)));
    }
    let Some(k) = numeral(bytes) else {
        return Ok(None);
    };
    let part = signers.multi(arena, k)?;
    settle(arena, part, frames)
}
