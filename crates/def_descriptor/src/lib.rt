//! Definitions of a descriptor's text, and of what it gives at a branch and an index (BIPs 380, 389, 32, 67, 173, 141).
#![tactic(auto)]

ghost use Rattle.std.specs.Prelude.{◌≡◌};
ghost use Rattle.def_descriptor.specs.declared.DescriptorFault.TheVariants as fault;

use std::alloc::{AllocError, AllocFailed};

pub mod examples;
pub mod laws;

/// What a descriptor's outputs are.
#[derive(Clone, Copy, Debug, PartialEq, Eq)]
pub enum Form {
    /// `wsh(..)`: the outputs of a miniscript.
    Wsh,
    /// `wpkh(..)`: the outputs of one key.
    Wpkh,
}

/// Why a text is no descriptor, or isn't read. A place is the byte offset of a token, of which the end of the text is one. But for `TooLong`, which
/// goes first, the first token that a row names counts, and of the rows behind `Syntax` that name it the first one.
#[derive(Clone, Copy, Debug, PartialEq, Eq)]
pub enum DescriptorFault {
    /// The text has more than 65,536 bytes.
    TooLong,
    /// A token that no other row names can't stand at this place.
    Syntax(u32),
    /// The name of a fragment, or the run of wrapper letters, at this place is the first that is too deep in the miniscript.
    TooDeep(u32),
    /// At this place stands the name of another kind of descriptor.
    Other(u32),
    /// In place of a key stands what looks like a private one.
    Private(u32),
    /// In place of a key stands another word.
    Key(u32),
    /// The key at this place has no point.
    Point(u32),
    /// The extended key at this place is of another network than one before.
    Network(u32),
    /// The step at this place is one too many.
    Depth(u32),
    /// The step at this place, behind an extended key, is hardened.
    Hardened(u32),
    /// The `<` at this place is the second of its key, or its numbers aren't as many as those of the first; or the number at this place stands
    /// before in its `<..>`, or is the 17th.
    Multipath(u32),
    /// Behind the `#` at this place isn't the checksum of what is before it.
    Checksum(u32),
    /// There was no memory. It says nothing of the text.
    Memory,
}

impl From<AllocError> for DescriptorFault {
    ghost from_gives = { λ _ why. why ≡ fault.Memory };

    fn from(_error: AllocError) -> DescriptorFault {
        DescriptorFault::Memory
    }
}

impl<T: Drop> From<AllocFailed<T>> for DescriptorFault {
    ghost from_gives = { λ _ why. why ≡ fault.Memory };

    fn from(_error: AllocFailed<T>) -> DescriptorFault {
        DescriptorFault::Memory
    }
}
