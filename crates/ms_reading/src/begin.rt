//! The last instruction of an expression.
ghost use Rattle.std.specs.Prelude.{◌≡◌, IfOk};
ghost use Rattle.ms_decode_laws.specs.Scaffolding.Reader.{pushed as the_pushed, begin_op as the_begin_op, begin as the_begin, begin_side as the_begin_side};
ghost use Rattle.ms_reading.specs.Scaffolding.States.{frames_of, state_of, instruction_of};

use crate::codes::Code;
use crate::frame::{Frame, push_frame};
use crate::leaves::push_part;
use crate::settle::settle_made;
use crate::want::Want;
use bumpalo::Bump;
use ms_script::Op;
use ms_tree::{Two, Wrapper};
use std::alloc::{AllocError, Global};

/// A push alone: a key, `0` or `1`.
fn pushed<'a, 's>(
    arena: &'a Bump<Global>,
    frames: &mut Vec<Frame<'a>>,
    bytes: &[u8],
) -> Result<Option<Want<'a, 's>>, AllocError>
    ensures { IfOk result (λ o. state_of o frames.new.items ≡ the_pushed (frames_of frames.old.items) bytes.now) }
{
    let part = push_part(arena, bytes)?;
    settle_made(arena, part, frames)
}

/// The last instruction of an expression that is no `and_v` and no W, where it is an opcode.
fn begin_op<'a, 's>(frames: &mut Vec<Frame<'a>>, op: Op) -> Result<Option<Want<'a, 's>>, AllocError>
    ensures { IfOk result (λ o. state_of o frames.new.items ≡ the_begin_op (frames_of frames.old.items) op) }
{
    match op {
        Op::CheckSequenceVerify => Ok(Some(Want::Relative)),
        Op::CheckLockTimeVerify => Ok(Some(Want::Absolute)),
        Op::Equal => Ok(Some(Want::Target)),
        Op::CheckMultiSig => Ok(Some(Want::Count)),
        Op::EqualVerify => {
            push_frame(frames, Frame::Under(Wrapper::V))?;
            Ok(Some(Want::Target))
        }
        Op::CheckMultiSigVerify => {
            push_frame(frames, Frame::Under(Wrapper::V))?;
            Ok(Some(Want::Count))
        }
        Op::CheckSigVerify => {
            push_frame(frames, Frame::Under(Wrapper::V))?;
            push_frame(frames, Frame::Under(Wrapper::C))?;
            Ok(Some(Want::Single))
        }
        Op::CheckSig => {
            push_frame(frames, Frame::Under(Wrapper::C))?;
            Ok(Some(Want::Single))
        }
        Op::Verify => {
            push_frame(frames, Frame::Under(Wrapper::V))?;
            Ok(Some(Want::Single))
        }
        Op::ZeroNotEqual => {
            push_frame(frames, Frame::Under(Wrapper::N))?;
            Ok(Some(Want::Single))
        }
        Op::BoolAnd => {
            push_frame(frames, Frame::SecondOf(Two::AndB))?;
            Ok(Some(Want::Side))
        }
        Op::BoolOr => {
            push_frame(frames, Frame::SecondOf(Two::OrB))?;
            Ok(Some(Want::Side))
        }
        Op::EndIf => {
            push_frame(frames, Frame::Ended)?;
            push_frame(frames, Frame::Chain)?;
            Ok(Some(Want::Single))
        }
        _ => Ok(None),
    }
}

/// The last instruction of an expression that is no `and_v` and no W.
pub fn begin<'a, 's>(
    arena: &'a Bump<Global>,
    frames: &mut Vec<Frame<'a>>,
    code: Code<'s>,
) -> Result<Option<Want<'a, 's>>, AllocError>
    ensures { IfOk result (λ o. state_of o frames.new.items ≡ the_begin (frames_of frames.old.items) (instruction_of code.entry)) }
{
    match code {
        Code::Push(bytes) => pushed(arena, frames, bytes),
        Code::Op(op) => begin_op(frames, op),
    }
}

/// The last instruction of a W: `a:x` ends in FROMALTSTACK, and `s:x` as x does.
pub fn begin_side<'a, 's>(
    arena: &'a Bump<Global>,
    frames: &mut Vec<Frame<'a>>,
    code: Code<'s>,
) -> Result<Option<Want<'a, 's>>, AllocError>
    ensures { IfOk result (λ o. state_of o frames.new.items ≡ the_begin_side (frames_of frames.old.items) (instruction_of code.entry)) }
{
    if let Code::Op(Op::FromAltStack) = code {
        push_frame(frames, Frame::AltStack)?;
        push_frame(frames, Frame::Chain)?;
        return Ok(Some(Want::Single));
    }
    push_frame(frames, Frame::Swapped)?;
    push_frame(frames, Frame::Chain)?;
    begin(arena, frames, code)
}
