//! Examples of the definitions.

ghost use Rattle.def_derive.specs.Examples.{
  HmacOfHiThere,
  HmacOfQuestion,
  HmacOfLongKey,
  ChildOfFirstVector,
  ChildOfSecondVector,
  NoHardenedChild,
  NoKeyWithParent,
  NoKeyWithNumber,
};

/// The definition gives these published values of HMAC-SHA512.
pub fn codes()
    ensures hi_there { HmacOfHiThere }
    ensures question { HmacOfQuestion }
    ensures long_key { HmacOfLongKey }
{}

/// The definitions give these keys their children, or none.
pub fn children()
    ensures first { ChildOfFirstVector }
    ensures second { ChildOfSecondVector }
    ensures hardened { NoHardenedChild }
{}

/// They read none of these texts.
pub fn refusals()
    ensures parent { NoKeyWithParent }
    ensures number { NoKeyWithNumber }
{}
