//! Examples of the definitions: the body does nothing, and its contract is the examples.

ghost use Rattle.def_assets.specs.Examples.{
  ShortestSignature,
  FirstOfShortest,
  NoSignature,
  KnownPreimage,
  UnknownPreimage,
  FirstOfTwo,
};

/// Which signature and which preimage are found.
pub fn assets_hold()
    ensures shortest_signature { ShortestSignature }
    ensures first_of_shortest { FirstOfShortest }
    ensures no_signature { NoSignature }
    ensures known_preimage { KnownPreimage }
    ensures unknown_preimage { UnknownPreimage }
    ensures first_of_two { FirstOfTwo }
{}
