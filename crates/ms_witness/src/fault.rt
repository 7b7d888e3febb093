//! Why bytes are no witness.

ghost use Rattle.std.specs.Prelude.{◌≡◌};
ghost use Rattle.ms_witness.specs.Reading.{fault_of_size};
ghost use Rattle.ms_witness.specs.declared.fault.WitnessFault.TheVariants.{Memory};

use ms_script::SizeFault;
use std::alloc::AllocError;
use thiserror::Error;

/// Why bytes are no witness: the fault at the first place of them that is wrong.
#[derive(Clone, Copy, Debug, PartialEq, Eq, Error)]
pub enum WitnessFault {
    /// The bytes end inside a size or an item.
    #[error("the witness ends inside a size or an item")]
    Truncated,
    /// A size isn't in its shortest spelling.
    #[error("a size isn't in its shortest spelling")]
    NonMinimalSize,
    /// There are no items.
    #[error("the witness has no items")]
    Empty,
    /// There are more than 10,000 items, or an item has more than 10,000 bytes.
    #[error("the witness has too many items, or an item is too long")]
    TooLong,
    /// Bytes follow the last item.
    #[error("bytes follow the last item")]
    Trailing,
    /// Memory was wanting, which may come in place of any other answer.
    #[error("no memory is left")]
    Memory,
}

impl From<SizeFault> for WitnessFault {
    ghost from_gives = { λ size why. why ≡ fault_of_size size };

    fn from(fault: SizeFault) -> WitnessFault {
        match fault {
            SizeFault::Truncated => WitnessFault::Truncated,
            SizeFault::NotShortest => WitnessFault::NonMinimalSize,
        }
    }
}

impl From<AllocError> for WitnessFault {
    ghost from_gives = { λ _ why. why ≡ Memory };

    fn from(_error: AllocError) -> WitnessFault {
        WitnessFault::Memory
    }
}
