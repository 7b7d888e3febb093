//! What the definitions imply.

ghost use Rattle.def_sane.specs.Laws.{
  TheyAreLimits,
  TheyAreTheOnly,
  MixIsFirst,
  RepeatedIsFirst,
  NoneIsRepeated,
  ReasonsAreByLimits,
  ValidMeans,
  SaneMeans,
  ValidUnderConsensus,
  SaneUnderConsensus,
};

/// The limits of a tree are limits of it, and it has no others.
pub fn limits()
    ensures are { TheyAreLimits }
    ensures only { TheyAreTheOnly }
{}

/// What is said of the first node is so.
pub fn nodes()
    ensures mix { MixIsFirst }
    ensures repeated { RepeatedIsFirst }
    ensures distinct { NoneIsRepeated }
{}

/// What it means that no reason stands against a miniscript.
pub fn reasons()
    ensures by_limits { ReasonsAreByLimits }
    ensures valid { ValidMeans }
    ensures sane { SaneMeans }
{}

/// What policy allows, consensus allows.
pub fn consensus()
    ensures valid { ValidUnderConsensus }
    ensures sane { SaneUnderConsensus }
{}
