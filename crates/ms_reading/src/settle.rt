//! An expression was read: what it closes is closed.
ghost use Rattle.std.specs.Prelude.{◌≡◌, IfOk};
ghost use Rattle.ms_decode_laws.specs.Scaffolding.Reader.{settle as the_settle};
ghost use Rattle.ms_reading.specs.Scaffolding.Parts.{tree_of, made};
ghost use Rattle.ms_reading.specs.Scaffolding.States.{frames_of, state_of};
ghost use Rattle.ms_reading.specs.Scaffolding.Settled.{settled, sided};

use crate::frame::{Frame, pop_frame, push_frame};
use crate::part::Part;
use crate::want::Want;
use bumpalo::Bump;
use std::alloc::{AllocError, Global};

/// Closes the frames that end with this expression, which is no W, up to a chain that it ends.
pub fn settle<'a, 's>(
    arena: &'a Bump<Global>,
    tree: Part<'a>,
    frames: &mut Vec<Frame<'a>>,
) -> Result<Option<Want<'a, 's>>, AllocError>
    ensures { IfOk result (λ o. state_of o frames.new.items ≡ the_settle (tree_of tree.entry) (frames_of frames.old.items)) }
{
    let mut tree = tree;
    while let Some(frame) = pop_frame(frames) {
        let grown = match frame {
            Frame::Under(wrapper) => tree.wrap(arena, wrapper)?,
            Frame::FirstOf(kind, second) => tree.two(arena, kind, second)?,
            Frame::Condition(y, z) => tree.and_or(arena, y, z)?,
            Frame::First(k, children) => children.with(tree)?.thresh(arena, k)?,
            Frame::Chain => {
                push_frame(frames, Frame::Chain)?;
                return Ok(Some(Want::After(tree)));
            }
            _ => return Ok(None),
        };
        let Some(next) = grown else {
            return Ok(None);
        };
        tree = next;
    }
    Ok(None)
}

/// The same where there is such an expression in range.
pub fn settle_made<'a, 's>(
    arena: &'a Bump<Global>,
    tree: Option<Part<'a>>,
    frames: &mut Vec<Frame<'a>>,
) -> Result<Option<Want<'a, 's>>, AllocError>
    ensures { IfOk result (λ o. state_of o frames.new.items ≡ settled (made tree.entry) (frames_of frames.old.items)) }
{
    let Some(tree) = tree else {
        return Ok(None);
    };
    settle(arena, tree, frames)
}

/// Closes the frame that ends with this expression, which is a W, where there is such an expression in range.
pub fn settle_side<'a, 's>(
    tree: Option<Part<'a>>,
    frames: &mut Vec<Frame<'a>>,
) -> Result<Option<Want<'a, 's>>, AllocError>
    ensures { IfOk result (λ o. state_of o frames.new.items ≡ sided (made tree.entry) (frames_of frames.old.items)) }
{
    let Some(tree) = tree else {
        return Ok(None);
    };
    match pop_frame(frames) {
        Some(Frame::SecondOf(kind)) => {
            push_frame(frames, Frame::FirstOf(kind, tree))?;
            Ok(Some(Want::Single))
        }
        Some(Frame::Further(k, children)) => Ok(Some(Want::Next(k, children.with(tree)?))),
        _ => Ok(None),
    }
}
