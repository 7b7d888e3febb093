//! Laws of ways: the bodies do nothing, and their contracts are the laws.

ghost use Rattle.def_ways.specs.Laws.{EachHasWay, EnoughIsSatisfied, MoreIsEnough, OneList, TriedAreWays};
ghost use Rattle.ms_way_laws.specs.Below.{MetBelow};
ghost use Rattle.ms_way_laws.specs.Examples.{First, Twice};
ghost use Rattle.ms_way_laws.specs.Leasts.{LeastsAreLeast};
ghost use Rattle.ms_way_laws.specs.Listed.{ListedAreChosen};
ghost use Rattle.ms_way_laws.specs.LocksHeld.{AfterHolds, OlderHolds};
ghost use Rattle.ms_way_laws.specs.Masks.{LeastOfSoMany};
ghost use Rattle.ms_way_laws.specs.Settled.{LeastOfThreshold, PolicyIsPart};
ghost use Rattle.ms_way_laws.specs.More.{MoreMeet, TrueWithMore};
ghost use Rattle.ms_way_laws.specs.Reckoned.{
  ByPlaces,
  KnownsAreNumbered,
  ReckonedAreWays,
  SettledAreEnough,
  TakeMerged,
  TotalIsCount,
};

/// The least sets with which so many parts hold that have nothing in common are made of the least sets of each. Listed part
/// by part each stands once.
pub fn parts()
    ensures least { LeastOfSoMany }
    ensures listed { ListedAreChosen }
{}

/// A policy that is true stays true where more atoms are, and one that an offer meets is met by each that is no less. So what
/// is enough for a sane tree stays enough with more.
pub fn more()
    ensures atoms { TrueWithMore }
    ensures offers { MoreMeet }
    ensures enough { MoreIsEnough }
{}

/// The locks that hold with the numbers of an offer are those that are no later than its own.
pub fn locks()
    ensures older { OlderHolds }
    ensures after { AfterHolds }
{}

/// There is one list alone of the ways of a tree.
pub fn list()
    ensures { OneList }
{}

/// Trying each set with each pair of locks finds all ways of a sane tree, and each offer that is enough has a way that is no
/// more.
pub fn tried()
    ensures ways { TriedAreWays }
    ensures each { EachHasWay }
{}

/// A policy in a setting is a part, and the least sets of a threshold are least with so many of its parts. So all least sets
/// of a policy are listed part by part, each once.
pub fn settled()
    ensures part { PolicyIsPart }
    ensures threshold { LeastOfThreshold }
    ensures listed { LeastsAreLeast }
{}

/// A least set of so many parts is enough in an earlier setting exactly where each part still holds that holds here.
pub fn below()
    ensures { MetBelow }
{}

/// What is reckoned setting by setting are so many as there are ways.
pub fn total()
    ensures { TotalIsCount }
{}

/// These hash values are enough to be settled, for the number and for the list.
pub fn settled_hash_values()
    ensures { SettledAreEnough }
{}

/// How what is reckoned can be made: known hash values are the bits of a number, offers with the same locks and as many keys
/// are compared by their places, and of merged lists no more is kept than is wanted.
pub fn making()
    ensures knowns { KnownsAreNumbered }
    ensures places { ByPlaces }
    ensures merged { TakeMerged }
{}

/// And in their order they are the list of all ways.
pub fn reckoned()
    ensures { ReckonedAreWays }
{}

/// An offer is enough for a sane tree exactly where its assets make a canonical satisfaction of the tree with stand-ins.
pub fn satisfied()
    ensures { EnoughIsSatisfied }
{}

/// What is reckoned of two miniscripts.
pub fn examples()
    ensures twice { Twice }
    ensures first { First }
{}
