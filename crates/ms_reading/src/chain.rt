//! What stands before a part of a chain of `and_v`: another part, or what the chain stands in.
ghost use Rattle.std.specs.Prelude.{◌≡◌, IfOk};
ghost use Rattle.ms_decode_laws.specs.Scaffolding.Reader.{before_ended as the_before_ended, before_else as the_before_else, before_alt_stack as the_before_alt_stack, before_swapped as the_before_swapped, closed as the_closed, before_part as the_before_part, after_step as the_after_step, if_step as the_if_step, not_if_step as the_not_if_step};
ghost use Rattle.ms_reading.specs.Scaffolding.Parts.{tree_of};
ghost use Rattle.ms_reading.specs.Scaffolding.States.{frames_of, state_of, instruction_of};

use crate::begin::begin;
use crate::codes::Code;
use crate::frame::{Frame, pop_frame, push_frame};
use crate::part::Part;
use crate::settle::{settle_made, settle_side};
use crate::want::Want;
use bumpalo::Bump;
use ms_script::Op;
use ms_tree::{Two, Wrapper};
use std::alloc::{AllocError, Global};

/// What stands before a part of a chain.
pub fn after_part<'a, 's>(
    arena: &'a Bump<Global>,
    x: Part<'a>,
    frames: &mut Vec<Frame<'a>>,
    code: Code<'s>,
) -> Result<Option<Want<'a, 's>>, AllocError>
    ensures { IfOk result (λ o. state_of o frames.new.items ≡ the_after_step (tree_of x.entry) (frames_of frames.old.items) (instruction_of code.entry)) }
{
    let Some(Frame::Chain) = pop_frame(frames) else {
        return Ok(None);
    };
    before_part(arena, x, frames, code)
}

/// The same, where the frame of the chain is taken away.
fn before_part<'a, 's>(
    arena: &'a Bump<Global>,
    x: Part<'a>,
    frames: &mut Vec<Frame<'a>>,
    code: Code<'s>,
) -> Result<Option<Want<'a, 's>>, AllocError>
    ensures { IfOk result (λ o. state_of o frames.new.items ≡ the_before_part (tree_of x.entry) (frames_of frames.old.items) (instruction_of code.entry)) }
{
    if let Code::Op(op) = code {
        if let Op::If | Op::NotIf | Op::Else | Op::ToAltStack | Op::Swap = op {
            return closed(arena, x, frames, op);
        }
    }
    push_frame(frames, Frame::Chain)?;
    push_frame(frames, Frame::FirstOf(Two::AndV, x))?;
    begin(arena, frames, code)
}

/// The chain begins with this part, and this opcode stands before it.
fn closed<'a, 's>(
    arena: &'a Bump<Global>,
    x: Part<'a>,
    frames: &mut Vec<Frame<'a>>,
    op: Op,
) -> Result<Option<Want<'a, 's>>, AllocError>
    ensures { IfOk result (λ o. state_of o frames.new.items ≡ the_closed (tree_of x.entry) (frames_of frames.old.items) op) }
{
    match pop_frame(frames) {
        Some(Frame::Ended) => before_ended(x, frames, op),
        Some(Frame::ElseSeen(y)) => before_else(arena, x, y, frames, op),
        Some(Frame::AltStack) => before_alt_stack(arena, x, frames, op),
        Some(Frame::Swapped) => before_swapped(arena, x, frames, op),
        _ => Ok(None),
    }
}

/// Before what FROMALTSTACK ends.
fn before_alt_stack<'a, 's>(
    arena: &'a Bump<Global>,
    x: Part<'a>,
    frames: &mut Vec<Frame<'a>>,
    op: Op,
) -> Result<Option<Want<'a, 's>>, AllocError>
    ensures { IfOk result (λ o. state_of o frames.new.items ≡ the_before_alt_stack (tree_of x.entry) (frames_of frames.old.items) op) }
{
    let Op::ToAltStack = op else {
        return Ok(None);
    };
    let part = x.wrap(arena, Wrapper::A)?;
    settle_side(part, frames)
}

/// Before what `s` is put on.
fn before_swapped<'a, 's>(
    arena: &'a Bump<Global>,
    x: Part<'a>,
    frames: &mut Vec<Frame<'a>>,
    op: Op,
) -> Result<Option<Want<'a, 's>>, AllocError>
    ensures { IfOk result (λ o. state_of o frames.new.items ≡ the_before_swapped (tree_of x.entry) (frames_of frames.old.items) op) }
{
    let Op::Swap = op else {
        return Ok(None);
    };
    let part = x.wrap(arena, Wrapper::S)?;
    settle_side(part, frames)
}

/// Before what ENDIF ends.
fn before_ended<'a, 's>(
    x: Part<'a>,
    frames: &mut Vec<Frame<'a>>,
    op: Op,
) -> Result<Option<Want<'a, 's>>, AllocError>
    ensures { IfOk result (λ o. state_of o frames.new.items ≡ the_before_ended (tree_of x.entry) (frames_of frames.old.items) op) }
{
    match op {
        Op::If => Ok(Some(Want::IfSeen(x))),
        Op::NotIf => Ok(Some(Want::NotIfSeen(x))),
        Op::Else => {
            push_frame(frames, Frame::ElseSeen(x))?;
            push_frame(frames, Frame::Chain)?;
            Ok(Some(Want::Single))
        }
        _ => Ok(None),
    }
}

/// Before what ELSE ends, where `y` stands behind it.
fn before_else<'a, 's>(
    arena: &'a Bump<Global>,
    x: Part<'a>,
    y: Part<'a>,
    frames: &mut Vec<Frame<'a>>,
    op: Op,
) -> Result<Option<Want<'a, 's>>, AllocError>
    ensures { IfOk result (λ o. state_of o frames.new.items ≡ the_before_else (tree_of x.entry) (tree_of y.entry) (frames_of frames.old.items) op) }
{
    if let Op::If = op {
        let part = x.two(arena, Two::OrI, y)?;
        return settle_made(arena, part, frames);
    }
    let Op::NotIf = op else {
        return Ok(None);
    };
    push_frame(frames, Frame::Condition(y, x))?;
    Ok(Some(Want::Single))
}

/// Before IF, where no ELSE follows: `d` or `j`.
pub fn before_if<'a, 's>(
    arena: &'a Bump<Global>,
    x: Part<'a>,
    frames: &mut Vec<Frame<'a>>,
    code: Code<'s>,
) -> Result<Option<Want<'a, 's>>, AllocError>
    ensures { IfOk result (λ o. state_of o frames.new.items ≡ the_if_step (tree_of x.entry) (frames_of frames.old.items) (instruction_of code.entry)) }
{
    if let Code::Op(Op::Dup) = code {
        let part = x.wrap(arena, Wrapper::D)?;
        return settle_made(arena, part, frames);
    }
    let Code::Op(Op::ZeroNotEqual) = code else {
        return Ok(None);
    };
    let Some(part) = x.wrap(arena, Wrapper::J)? else {
        return Ok(None);
    };
    Ok(Some(Want::Measured(part)))
}

/// Before NOTIF, where no ELSE follows: `or_d` or `or_c`.
pub fn before_not_if<'a, 's>(
    arena: &'a Bump<Global>,
    x: Part<'a>,
    frames: &mut Vec<Frame<'a>>,
    code: Code<'s>,
) -> Result<Option<Want<'a, 's>>, AllocError>
    ensures { IfOk result (λ o. state_of o frames.new.items ≡ the_not_if_step (tree_of x.entry) (frames_of frames.old.items) (instruction_of code.entry)) }
{
    if let Code::Op(Op::IfDup) = code {
        push_frame(frames, Frame::FirstOf(Two::OrD, x))?;
        return Ok(Some(Want::Single));
    }
    push_frame(frames, Frame::FirstOf(Two::OrC, x))?;
    begin(arena, frames, code)
}
