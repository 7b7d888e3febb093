//! Why a tree doesn't pass.
ghost use Rattle.std.specs.Prelude.{◌≡◌};
ghost use Rattle.ms_sane.specs.Misfits.{misfit_of};
ghost use Rattle.ms_sane.specs.declared.misfit.Misfit.TheVariants.{Memory as NoMemory};

use def_sane::Unfit;
use std::alloc::AllocError;

/// Why a tree didn't pass: a reason against it, or want of memory.
#[derive(Clone, Copy, Debug, PartialEq, Eq)]
pub enum Misfit {
    /// The first reason against the tree.
    Unfit(Unfit),
    /// There was no memory.
    Memory,
}

impl From<Unfit> for Misfit {
    ghost from_gives = { λ unfit misfit. misfit ≡ misfit_of unfit };

    fn from(unfit: Unfit) -> Misfit {
        Misfit::Unfit(unfit)
    }
}

impl From<AllocError> for Misfit {
    ghost from_gives = { λ _ misfit. misfit ≡ NoMemory };

    fn from(_error: AllocError) -> Misfit {
        Misfit::Memory
    }
}
