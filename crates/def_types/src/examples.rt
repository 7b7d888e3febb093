//! Examples of types, and of refusals.

ghost use Rattle.def_types.specs.Examples.{KeyType, ChainType, ZeroType, OneType, LocksType};
ghost use Rattle.def_types.specs.Properties.{LeafProperties, AndOrProperties, AndProperties, OrProperties, ThresholdProperties, WrapperProperties};
ghost use Rattle.def_types.specs.Refusals.{NumberRanges, AndOrRules, AndOrChildren, AndRules, OrRules, ThresholdRules, WrapperRules, RuleOrder, MalleableAndOr, MalleableOr, MalleableThreshold, MalleableOrder};

/// These expressions have these types and properties.
pub fn types()
    ensures key_type { KeyType }
    ensures chain_type { ChainType }
    ensures zero_type { ZeroType }
    ensures one_type { OneType }
    ensures locks_type { LocksType }
{}

/// These expressions have these malleability properties: each fragment and wrapper.
pub fn properties()
    ensures leaf_properties { LeafProperties }
    ensures and_or_properties { AndOrProperties }
    ensures and_properties { AndProperties }
    ensures or_properties { OrProperties }
    ensures threshold_properties { ThresholdProperties }
    ensures wrapper_properties { WrapperProperties }
{}

/// These expressions break these rules: each rule, with the node that has it.
pub fn refusals()
    ensures number_ranges { NumberRanges }
    ensures and_or_rules { AndOrRules }
    ensures and_or_children { AndOrChildren }
    ensures and_rules { AndRules }
    ensures or_rules { OrRules }
    ensures threshold_rules { ThresholdRules }
    ensures wrapper_rules { WrapperRules }
    ensures rule_order { RuleOrder }
    ensures malleable_and_or { MalleableAndOr }
    ensures malleable_or { MalleableOr }
    ensures malleable_threshold { MalleableThreshold }
    ensures malleable_order { MalleableOrder }
{}
