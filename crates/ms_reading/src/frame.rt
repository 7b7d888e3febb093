//! What the reader has still to close, the innermost last.
ghost use Rattle.std.specs.Prelude.{◌≡◌, ◌∷◌, ◌<◌, length, OnOk, IfSome};
ghost use Rattle.ms_reading.specs.Scaffolding.States.{frame_of, frames_of, popped_frame};

use crate::children::{Children, Numeral};
use crate::part::Part;
use ms_tree::{Two, Wrapper};
use std::alloc::AllocError;

/// What stands around the expression that is read, in the reading order.
#[derive(Drop)]
pub enum Frame<'a> {
    /// `c`, `v` or `n` is put on it.
    Under(Wrapper),
    /// It ends a chain of `and_v`, whose further parts stand before it.
    Chain,
    /// It is the first child of the fragment, before this second one.
    FirstOf(Two, Part<'a>),
    /// It is the second child of `and_b` or `or_b`.
    SecondOf(Two),
    /// It stands before ENDIF.
    Ended,
    /// It stands before ELSE, and this one behind it.
    ElseSeen(Part<'a>),
    /// It is the X of `andor(X,y,z)`.
    Condition(Part<'a>, Part<'a>),
    /// `a` is put on it.
    AltStack,
    /// `s` is put on it.
    Swapped,
    /// It is a further child of a threshold, before these.
    Further(Numeral, Children<'a>),
    /// It is the first child of a threshold, before these.
    First(Numeral, Children<'a>),
}

/// Takes the innermost frame away.
pub fn pop_frame<'a>(frames: &mut Vec<Frame<'a>>) -> Option<Frame<'a>>
    ensures taken { popped_frame result (frames_of frames.old.items) (frames_of frames.new.items) }
    ensures shorter { IfSome result (λ frame. length frames.new.items < length frames.old.items) }
{
    frames.pop()
}

/// Adds an innermost frame.
pub fn push_frame<'a>(frames: &mut Vec<Frame<'a>>, frame: Frame<'a>) -> Result<(), AllocError>
    ensures { OnOk result (frames_of frames.new.items ≡ frame_of frame.entry ∷ frames_of frames.old.items) }
{
    frames.push(frame)?;
    Ok(())
}
