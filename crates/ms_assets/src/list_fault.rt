//! Faults of lists.
ghost use Rattle.std.specs.Prelude.{◌≡◌};
ghost use Rattle.ms_assets.specs.declared.list_fault.ListFault.TheVariants as fault;

use std::alloc::{AllocError, AllocFailed};

/// Why a list of a file isn't read.
#[derive(Clone, Copy, Debug, PartialEq, Eq)]
pub enum ListFault {
    /// The first element that isn't as it has to be, by its place from 0.
    At(u32),
    /// There was no memory.
    Memory,
}

impl From<AllocError> for ListFault {
    ghost from_gives = { λ _ why. why ≡ fault.Memory };

    fn from(_error: AllocError) -> ListFault {
        ListFault::Memory
    }
}

impl<T: Drop> From<AllocFailed<T>> for ListFault {
    ghost from_gives = { λ _ why. why ≡ fault.Memory };

    fn from(_error: AllocFailed<T>) -> ListFault {
        ListFault::Memory
    }
}
