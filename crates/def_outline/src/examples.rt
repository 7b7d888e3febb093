//! Examples of outlines, and of letters that fit.

ghost use Rattle.def_outline.specs.Examples.{OutlineOfChoice, FitsV, FitsNothing, FitsBelowSugar};

/// Outlines of some trees, and letters that fit.
pub fn outlines()
    ensures choice { OutlineOfChoice }
    ensures v { FitsV }
    ensures nothing { FitsNothing }
    ensures below_sugar { FitsBelowSugar }
{}
