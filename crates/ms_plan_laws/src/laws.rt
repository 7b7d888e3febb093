//! What is promised of plans.

ghost use Rattle.def_plan.specs.Laws.{EstimateExists, NoneHolds, LengthsDecideAll, SufficesAlways, WeighsAtMostAlways, LeastAlways, ListedAlways, NoneInVainEver, InOrderAlways};

/// A plan exists where all listed keys are enough. Its keys are enough, whatever lengths their signatures have and whoever
/// else signs; no more than its weight is needed where none of theirs is longer than estimated, and nothing lighter is to
/// be had where none is shorter; only listed keys are asked, in the order of the nodes, and none in vain; and only the
/// lengths decide.
pub fn plans()
    ensures estimate { EstimateExists }
    ensures none { NoneHolds }
    ensures lengths { LengthsDecideAll }
    ensures suffices { SufficesAlways }
    ensures weight { WeighsAtMostAlways }
    ensures least { LeastAlways }
    ensures listed { ListedAlways }
    ensures none_in_vain { NoneInVainEver }
    ensures in_order { InOrderAlways }
{}
