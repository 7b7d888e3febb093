//! Examples of ways.

ghost use Rattle.def_ways.specs.Examples.{
  KeyOrLaterKey,
  TwoOfThree,
  LocksOfOneKind,
  LockOfNoBlocks,
  LocksOfBothUnits,
  RelativeAndAbsolute,
  HashValueTwice,
  HashValueFirst,
  NoWay,
  Settings,
  WeightOfKey,
  WeightOfLaterKey,
  LineOfKey,
  LineOfLaterKey,
  LineOfHash,
};

/// The ways of these miniscripts, in their order.
pub fn ways()
    ensures key_or_later_key { KeyOrLaterKey }
    ensures two_of_three { TwoOfThree }
    ensures locks_of_one_kind { LocksOfOneKind }
    ensures lock_of_no_blocks { LockOfNoBlocks }
    ensures locks_of_both_units { LocksOfBothUnits }
    ensures relative_and_absolute { RelativeAndAbsolute }
    ensures hash_value_twice { HashValueTwice }
    ensures hash_value_first { HashValueFirst }
    ensures no_way { NoWay }
    ensures settings { Settings }
{}

/// What is written for a way weighs so much.
pub fn weights()
    ensures key { WeightOfKey }
    ensures later_key { WeightOfLaterKey }
{}

/// The lines of these ways.
pub fn lines()
    ensures key { LineOfKey }
    ensures later_key { LineOfLaterKey }
    ensures hash { LineOfHash }
{}
