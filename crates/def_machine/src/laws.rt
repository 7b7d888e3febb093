//! What the definitions imply.

ghost use Rattle.def_machine.specs.Laws.{JoinedSteps, SpelledRun};

/// A run goes through the instructions one after the other.
pub fn runs()
    ensures joined { JoinedSteps }
    ensures spelled { SpelledRun }
{}
