//! What the definition of a choice implies.
ghost use Rattle.ms_choice.specs.Laws.{PicksAreAll, LightestWeighsLeast, GreatestWeighsMost};

/// The choices that are listed are all, the lightest one weighs least, and the greatest weight is the most
/// that one weighs. There is none of these exactly where no choice is listed.
pub fn choices()
    ensures all { PicksAreAll }
    ensures lightest { LightestWeighsLeast }
    ensures greatest { GreatestWeighsMost }
{}
