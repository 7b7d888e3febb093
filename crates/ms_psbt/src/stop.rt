//! Why a source isn't read.

ghost use Rattle.std.specs.Prelude.{◌≡◌};
ghost use Rattle.ms_psbt.specs.declared.stop.ReadStop.TheVariants as stop;

use def_psbt::Refusal;
use std::alloc::{AllocError, AllocFailed};

/// Why a source isn't read.
#[derive(Clone, Copy, Debug, PartialEq, Eq)]
pub enum ReadStop {
    /// It is refused.
    Refused(Refusal),
    /// Memory was wanting, which may come in place of any other answer.
    Memory,
}

impl From<Refusal> for ReadStop {
    ghost from_gives = { λ refusal why. why ≡ stop.Refused refusal };

    fn from(refusal: Refusal) -> ReadStop {
        ReadStop::Refused(refusal)
    }
}

impl From<AllocError> for ReadStop {
    ghost from_gives = { λ _ why. why ≡ stop.Memory };

    fn from(_error: AllocError) -> ReadStop {
        ReadStop::Memory
    }
}

impl<T: Drop> From<AllocFailed<T>> for ReadStop {
    ghost from_gives = { λ _ why. why ≡ stop.Memory };

    fn from(_error: AllocFailed<T>) -> ReadStop {
        ReadStop::Memory
    }
}
