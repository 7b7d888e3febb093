//! What stops an instruction.
ghost use Rattle.std.specs.Prelude.{◌≡◌};
ghost use Rattle.ms_interp.specs.declared.stop.Stop.TheVariants.{Fault, Memory};

use def_machine::ScriptFault;
use std::alloc::{AllocError, AllocFailed};

/// What stops an instruction: a fault of the script, or want of memory.
#[derive(Clone, Copy, Debug)]
pub enum Stop {
    /// The script is refused with this fault.
    Fault(ScriptFault),
    /// There was no memory.
    Memory,
}

impl From<ScriptFault> for Stop {
    ghost from_gives = { λ fault stop. stop ≡ Fault fault };

    fn from(fault: ScriptFault) -> Stop {
        Stop::Fault(fault)
    }
}

impl From<AllocError> for Stop {
    ghost from_gives = { λ _ stop. stop ≡ Memory };

    fn from(_error: AllocError) -> Stop {
        Stop::Memory
    }
}

impl<T: Drop> From<AllocFailed<T>> for Stop {
    ghost from_gives = { λ _ stop. stop ≡ Memory };

    fn from(_error: AllocFailed<T>) -> Stop {
        Stop::Memory
    }
}
