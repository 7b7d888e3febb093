//! What stands before the arguments of a lock or a threshold.
ghost use Rattle.std.specs.Prelude.{◌≡◌, IfOk};
ghost use Rattle.ms_decode_laws.specs.Scaffolding.Reader.{relative_step, absolute_step, next_step};
ghost use Rattle.ms_reading.specs.Scaffolding.States.{frames_of, state_of, instruction_of, children_of};

use crate::begin::begin;
use crate::children::{Children, Numeral};
use crate::codes::Code;
use crate::frame::{Frame, push_frame};
use crate::leaves::{leaf_part, numeral};
use crate::settle::settle;
use crate::want::Want;
use bumpalo::Bump;
use ms_script::Op;
use ms_tree::Leaf;
use std::alloc::{AllocError, Global};

/// The number of `older`.
pub fn relative<'a, 's>(
    arena: &'a Bump<Global>,
    frames: &mut Vec<Frame<'a>>,
    code: Code<'s>,
) -> Result<Option<Want<'a, 's>>, AllocError>
    ensures { IfOk result (λ o. state_of o frames.new.items ≡ relative_step (frames_of frames.old.items) (instruction_of code.entry)) }
{
    let Code::Push(bytes) = code else {
        return Ok(None);
    };
    let Some(number) = numeral(bytes) else {
        return Ok(None);
    };
    let part = leaf_part(arena, Leaf::Older(number.value))?;
    settle(arena, part, frames)
}

/// The number of `after`.
pub fn absolute<'a, 's>(
    arena: &'a Bump<Global>,
    frames: &mut Vec<Frame<'a>>,
    code: Code<'s>,
) -> Result<Option<Want<'a, 's>>, AllocError>
    ensures { IfOk result (λ o. state_of o frames.new.items ≡ absolute_step (frames_of frames.old.items) (instruction_of code.entry)) }
{
    let Code::Push(bytes) = code else {
        return Ok(None);
    };
    let Some(number) = numeral(bytes) else {
        return Ok(None);
    };
    let part = leaf_part(arena, Leaf::After(number.value))?;
    settle(arena, part, frames)
}

/// A further child of a threshold, or its first one.
pub fn next_child<'a, 's>(
    arena: &'a Bump<Global>,
    k: Numeral,
    children: Children<'a>,
    frames: &mut Vec<Frame<'a>>,
    code: Code<'s>,
) -> Result<Option<Want<'a, 's>>, AllocError>
    ensures { IfOk result (λ o. state_of o frames.new.items ≡ next_step k.value (children_of children.entry) (frames_of frames.old.items) (instruction_of code.entry)) }
{
    if let Code::Op(Op::Add) = code {
        push_frame(frames, Frame::Further(k, children))?;
        return Ok(Some(Want::Side));
    }
    push_frame(frames, Frame::First(k, children))?;
    begin(arena, frames, code)
}
