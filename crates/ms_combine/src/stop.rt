//! Why nothing is combined.

ghost use Rattle.std.specs.Prelude.{◌≡◌};
ghost use Rattle.ms_combine.specs.declared.stop.CombineStop.TheVariants as stop;

use def_combine::CombineRefusal;
use std::alloc::{AllocError, AllocFailed};

/// Why nothing is combined.
#[derive(Clone, Copy, Debug, PartialEq, Eq)]
pub enum CombineStop {
    /// The source is refused.
    Refused(CombineRefusal),
    /// Memory was wanting, which may come in place of any other answer.
    Memory,
}

impl From<CombineRefusal> for CombineStop {
    ghost from_gives = { λ refusal why. why ≡ stop.Refused refusal };

    fn from(refusal: CombineRefusal) -> CombineStop {
        CombineStop::Refused(refusal)
    }
}

impl From<AllocError> for CombineStop {
    ghost from_gives = { λ _ why. why ≡ stop.Memory };

    fn from(_error: AllocError) -> CombineStop {
        CombineStop::Memory
    }
}

impl<T: Drop> From<AllocFailed<T>> for CombineStop {
    ghost from_gives = { λ _ why. why ≡ stop.Memory };

    fn from(_error: AllocFailed<T>) -> CombineStop {
        CombineStop::Memory
    }
}
