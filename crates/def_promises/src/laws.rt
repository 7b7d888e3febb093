//! Promises that follow from the definitions alone.

ghost use Rattle.def_promises.specs.Promises.{FreshHasItem, UnchangeableIsNonMalleable};

/// What makes a stack fresh is one of its items.
pub fn fresh()
    ensures item { FreshHasItem }
{}

/// What nobody can change, of bytes or not, nobody can change by bytes.
pub fn unchangeable()
    ensures non_malleable { UnchangeableIsNonMalleable }
{}
