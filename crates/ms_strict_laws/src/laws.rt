//! The strict choice of a miniscript, and what nobody can change.

ghost use Rattle.def_promises.specs.Promises.{StrictExists, StrictIsNonMalleable, StrictIsUnchangeable, NothingToAccept, TightIsNonMalleable, TightIsUnchangeable, StrictIsLightest};

/// The strict choice of a sane miniscript exists wherever a canonical satisfaction does, nobody can change it,
/// and no lighter one is as safe.
pub fn strict()
    ensures exists { StrictExists }
    ensures non_malleable { StrictIsNonMalleable }
    ensures unchangeable { StrictIsUnchangeable }
    ensures nothing { NothingToAccept }
    ensures tight { TightIsNonMalleable }
    ensures tight_unchangeable { TightIsUnchangeable }
    ensures lightest { StrictIsLightest }
{}
