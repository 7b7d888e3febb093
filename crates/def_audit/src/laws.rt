//! What the definitions imply.

ghost use Rattle.def_audit.specs.Laws.{DerivesIsFull, StepsAreOfTree};

/// Without their steps, derivations are the satisfactions and dissatisfactions by all rows; and the steps are those of
/// nodes of the miniscript.
pub fn derivations()
    ensures is_full { DerivesIsFull }
    ensures of_tree { StepsAreOfTree }
{}
