//! What the definitions imply.

ghost use Rattle.ms_audit_laws.specs.Laws.{WalkIsTrail, TrailIsUnique, AcceptedHasTrail, TrailIsAccepted, CanonicalIsSat, SatHasCanonicalSteps, SatIsCanonical};

/// A walk finds the steps by which a stack satisfies a miniscript, and there are no others.
pub fn walks()
    ensures walk { WalkIsTrail }
    ensures unique { TrailIsUnique }
{}

/// What the interpreter accepts has such steps, and what has them is accepted but for the interpreter's limits.
pub fn acceptance()
    ensures has_trail { AcceptedHasTrail }
    ensures is_accepted { TrailIsAccepted }
{}

/// Steps by canonical rows alone, with what assets hold, are those of a canonical satisfaction; and a canonical
/// satisfaction has such steps, and no others.
pub fn canonical()
    ensures is_sat { CanonicalIsSat }
    ensures has_steps { SatHasCanonicalSteps }
    ensures no_others { SatIsCanonical }
{}
