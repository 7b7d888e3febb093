//! Examples of plans and of plan files.

ghost use Rattle.def_plan.specs.Examples.{ShortestTwo, FirstTwo, TooFew, LockCounts, PreimagesFirst};
ghost use Rattle.def_plan.specs.FileExamples.{Gives, Shapes, Parts, Values, Repeats};

/// Which keys are asked, and what the satisfaction weighs.
pub fn plans()
    ensures shortest_two { ShortestTwo }
    ensures first_two { FirstTwo }
    ensures too_few { TooFew }
    ensures lock_counts { LockCounts }
    ensures preimages_first { PreimagesFirst }
{}

/// What plan files give, and why they are refused.
pub fn plan_files()
    ensures gives { Gives }
    ensures shapes { Shapes }
    ensures parts { Parts }
    ensures values { Values }
    ensures repeats { Repeats }
{}
