//! Examples of Scripts.

ghost use Rattle.def_emit.specs.Examples.{Numbers, Keys, Locks, Hashes, Branches, Lists, Wrappers, Fused, NotFused};

/// These fragments and wrappers have these Scripts.
pub fn scripts()
    ensures numbers { Numbers }
    ensures keys { Keys }
    ensures locks { Locks }
    ensures hashes { Hashes }
    ensures branches { Branches }
    ensures lists { Lists }
    ensures wrappers { Wrappers }
    ensures fused { Fused }
    ensures not_fused { NotFused }
{}
