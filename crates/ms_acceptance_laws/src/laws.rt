//! What the interpreter accepts of a miniscript.

ghost use Rattle.def_promises.specs.Acceptance.{CanonicalIsAccepted, InversionHolds};
ghost use Rattle.def_promises.specs.Courses.{CanonicalHasCourse, EachFormalIsRun, HeightIsReached};
ghost use Rattle.def_promises.specs.Reached.{EachFormalIsTaken, LimitsAreReached};

/// The interpreter accepts the canonical satisfactions of a valid miniscript, within its limits, and its stacks get as
/// high as on a formal satisfaction with as many items; and what it accepts is a satisfaction, which it accepts but for
/// its limits.
pub fn acceptance()
    ensures canonical { CanonicalIsAccepted }
    ensures course { CanonicalHasCourse }
    ensures inversion { InversionHolds }
{}

/// With assets that have all that a valid miniscript can take, each of its formal satisfactions is run, with exactly the
/// peak of its course; so the height is reached.
pub fn heights()
    ensures formal { EachFormalIsRun }
    ensures reached { HeightIsReached }
{}

/// With such assets, whose signatures have 73 bytes, each of its formal satisfactions is that of a canonical one, with
/// exactly its items, its weight and its keys; so each of the limits is reached.
pub fn limits()
    ensures taken { EachFormalIsTaken }
    ensures reached { LimitsAreReached }
{}
