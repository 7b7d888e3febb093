//! Definitions of miniscript text: its tokens, the trees that it spells, its refusals and its printed form.
#![tactic(auto)]

ghost use Rattle.std.specs.Prelude.{◌≡◌};
ghost use Rattle.def_text.specs.declared.TextFault.TheVariants as fault;

use std::alloc::{AllocError, AllocFailed};

pub mod examples;
pub mod laws;

/// Why a text has no tree, or isn't read. A place is the byte offset of a token in the text. `TooLong` goes first; of
/// `Syntax` and `TooDeep` comes the one whose token stands first.
#[derive(Clone, Copy, Debug, PartialEq, Eq)]
pub enum TextFault {
    /// The text has more than 65,536 bytes.
    TooLong,
    /// The tokens before the one at this place begin a spelled text, and those up to and with it begin none. The end of
    /// the text is a token too.
    Syntax(u32),
    /// The name of a fragment, or the run of wrapper letters, at this place is the first whose written depth is over 256.
    /// It counts each name and each letter that encloses it, and besides a name itself, and a run all its letters, whether
    /// or not a colon follows.
    TooDeep(u32),
    /// There was no memory. It says nothing of the text.
    Memory,
}

impl From<AllocError> for TextFault {
    ghost from_gives = { λ _ why. why ≡ fault.Memory };

    fn from(_error: AllocError) -> TextFault {
        TextFault::Memory
    }
}

impl<T: Drop> From<AllocFailed<T>> for TextFault {
    ghost from_gives = { λ _ why. why ≡ fault.Memory };

    fn from(_error: AllocFailed<T>) -> TextFault {
        TextFault::Memory
    }
}
