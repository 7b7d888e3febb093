//! What the definitions imply.

ghost use Rattle.def_limits.specs.Laws.{LimitsExist, LimitsAreUnique};

/// Each tree has limits, and no others.
pub fn limits()
    ensures exist { LimitsExist }
    ensures unique { LimitsAreUnique }
{}
