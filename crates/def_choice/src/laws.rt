//! What the definitions imply.

ghost use Rattle.def_choice.specs.Laws.{
  SetsAreAll,
  SetsAreInOrder,
  CheapestIsLightest,
  DissatisfactionIsLightest,
  UnsignedIsFound,
  TightIsCanonical,
  TightIsUnsigned,
  StrictIsTight,
  StrictIsCanonical,
};

/// The listed sets are all sets, in order.
pub fn sets()
    ensures all { SetsAreAll }
    ensures in_order { SetsAreInOrder }
{}

/// The cheapest satisfaction weighs least, and there is one exactly where a canonical satisfaction exists.
pub fn cheapest()
    ensures lightest { CheapestIsLightest }
    ensures dissatisfaction { DissatisfactionIsLightest }
    ensures unsigned { UnsignedIsFound }
{}

/// The strict satisfaction is tight, and so canonical.
pub fn strict()
    ensures tight_is_canonical { TightIsCanonical }
    ensures tight_is_unsigned { TightIsUnsigned }
    ensures tight { StrictIsTight }
    ensures canonical { StrictIsCanonical }
{}
