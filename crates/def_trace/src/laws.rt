//! What the definitions imply.

ghost use Rattle.def_trace.specs.Laws.{PlacedAreItems, PlacesAdjoin, PlacesGrow, Rebuilt, Passed, ChecksTold, PlaceTold, WritersOfScript, WritersAreNodes};

/// Where the instructions of a script stand.
pub fn places()
    ensures items { PlacedAreItems }
    ensures adjoin { PlacesAdjoin }
    ensures grow { PlacesGrow }
{}

/// What a reader makes of a trace.
pub fn readings()
    ensures rebuilt { Rebuilt }
    ensures passed { Passed }
{}

/// What a run comes to.
pub fn outcomes()
    ensures checks { ChecksTold }
    ensures place { PlaceTold }
{}

/// Which node writes an instruction.
pub fn writers()
    ensures script { WritersOfScript }
    ensures nodes { WritersAreNodes }
{}
