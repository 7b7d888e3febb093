//! What stands before a push that EQUAL compares with: a hash lock, a `pk_h` or a threshold.
ghost use Rattle.std.specs.Prelude.{◌≡◌, List, IfOk};
ghost use Rattle.def_decode.specs.Decoded.{first_with};
ghost use Rattle.ms_decode_laws.specs.Scaffolding.Reader.{target_step, given_step, key_hash as the_key_hash, hash160_step, compared_step, sized_step, measured_step};
ghost use Rattle.ms_reading.specs.declared.frame.Frame.{Frame as AFrame};
ghost use Rattle.ms_reading.specs.Scaffolding.Keys.{keys_of};
ghost use Rattle.ms_reading.specs.Scaffolding.Leaves.{kind_before};
ghost use Rattle.ms_reading.specs.Scaffolding.Parts.{tree_of};
ghost use Rattle.ms_reading.specs.Scaffolding.States.{frames_of, state_of, instruction_of};

use crate::arguments::next_child;
use crate::children::Children;
use crate::codes::Code;
use crate::found::first_key;
use crate::frame::{Frame, pop_frame};
use crate::hashed::Hashed;
use crate::leaves::{hash_part, leaf_part, numeral};
use crate::part::Part;
use crate::settle::settle;
use crate::want::Want;
use bumpalo::Bump;
use ms_script::Op;
use ms_tree::{HashKind, Key, Leaf, Wrapper};
use std::alloc::{AllocError, Global};

/// What EQUAL compares with.
pub fn target<'a, 's>(code: Code<'s>) -> Option<Want<'a, 's>>
    ensures { (fs : List AFrame) → state_of result fs ≡ target_step (frames_of fs) (instruction_of code.entry) }
{
    match code {
        Code::Push(bytes) => Some(Want::Given(bytes)),
        Code::Op(_) => None,
    }
}

/// The function of a hash lock, by its opcode. That of HASH160 may be in a `pk_h` too.
fn hash_kind(code: Code<'_>) -> Option<HashKind>
    ensures { result ≡ kind_before (instruction_of code.entry) }
{
    match code {
        Code::Op(Op::Sha256) => Some(HashKind::Sha256),
        Code::Op(Op::Hash256) => Some(HashKind::Hash256),
        Code::Op(Op::Ripemd160) => Some(HashKind::Ripemd160),
        _ => None,
    }
}

/// Before a push that is compared with.
pub fn given<'a, 's>(
    alloc: Global,
    arena: &'a Bump<Global>,
    bytes: &'s [u8],
    frames: &mut Vec<Frame<'a>>,
    code: Code<'s>,
) -> Result<Option<Want<'a, 's>>, AllocError>
    ensures { IfOk result (λ o. state_of o frames.new.items ≡ given_step bytes.now (frames_of frames.old.items) (instruction_of code.entry)) }
{
    if let Some(kind) = hash_kind(code) {
        let Some(part) = hash_part(arena, kind, bytes)? else {
            return Ok(None);
        };
        return Ok(Some(Want::Compared(part)));
    }
    if let Code::Op(Op::Hash160) = code {
        return Ok(Some(Want::Hash160Of(bytes)));
    }
    let Some(k) = numeral(bytes) else {
        return Ok(None);
    };
    next_child(arena, k, Children::none(alloc), frames, code)
}

/// Before HASH160 and a push: DUP of `pk_h`, or EQUALVERIFY of a hash lock.
pub fn hash160_of<'a, 's>(
    arena: &'a Bump<Global>,
    keys: &[Hashed],
    bytes: &'s [u8],
    frames: &mut Vec<Frame<'a>>,
    code: Code<'s>,
) -> Result<Option<Want<'a, 's>>, AllocError>
    ensures { IfOk result (λ o. state_of o frames.new.items ≡ hash160_step (first_with (keys_of keys.now)) bytes.now (frames_of frames.old.items) (instruction_of code.entry)) }
{
    if let Code::Op(Op::Dup) = code {
        return key_hash(arena, first_key(keys, bytes), frames);
    }
    let Code::Op(Op::EqualVerify) = code else {
        return Ok(None);
    };
    let Some(part) = hash_part(arena, HashKind::Hash160, bytes)? else {
        return Ok(None);
    };
    Ok(Some(Want::Sized(part)))
}

/// The `pk_h` of a key, whose EQUALVERIFY was taken for VERIFY behind EQUAL.
fn key_hash<'a, 's>(
    arena: &'a Bump<Global>,
    key: Option<Key>,
    frames: &mut Vec<Frame<'a>>,
) -> Result<Option<Want<'a, 's>>, AllocError>
    ensures { IfOk result (λ o. state_of o frames.new.items ≡ the_key_hash key (frames_of frames.old.items)) }
{
    let Some(Frame::Under(Wrapper::V)) = pop_frame(frames) else {
        return Ok(None);
    };
    let Some(key) = key else {
        return Ok(None);
    };
    let part = leaf_part(arena, Leaf::PkH(key))?;
    settle(arena, part, frames)
}

/// EQUALVERIFY of a hash lock.
pub fn compared<'a, 's>(x: Part<'a>, code: Code<'s>) -> Option<Want<'a, 's>>
    ensures { (fs : List AFrame) → state_of result fs ≡ compared_step (tree_of x.entry) (frames_of fs) (instruction_of code.entry) }
{
    match code {
        Code::Op(Op::EqualVerify) => Some(Want::Sized(x)),
        _ => None,
    }
}

/// The number 32 of a hash lock. That it is this number shows once the bytes are compared.
pub fn sized<'a, 's>(x: Part<'a>, code: Code<'s>) -> Option<Want<'a, 's>>
    ensures { (fs : List AFrame) → state_of result fs ≡ sized_step (tree_of x.entry) (frames_of fs) (instruction_of code.entry) }
{
    match code {
        Code::Push(_) => Some(Want::Measured(x)),
        Code::Op(_) => None,
    }
}

/// SIZE, with which an expression begins.
pub fn measured<'a, 's>(
    arena: &'a Bump<Global>,
    x: Part<'a>,
    frames: &mut Vec<Frame<'a>>,
    code: Code<'s>,
) -> Result<Option<Want<'a, 's>>, AllocError>
    ensures { IfOk result (λ o. state_of o frames.new.items ≡ measured_step (tree_of x.entry) (frames_of frames.old.items) (instruction_of code.entry)) }
{
    let Code::Op(Op::Size) = code else {
        return Ok(None);
    };
    settle(arena, x, frames)
}
