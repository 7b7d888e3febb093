//! Examples of the definitions.

ghost use Rattle.def_curve.specs.Examples.{
  PrimeIsPublished,
  GeneratorIsOnCurve,
  TwiceGenerator,
  ThriceGenerator,
  OrderTimesGenerator,
  OrderLessOneTimesGenerator,
  KeyOfGenerator,
  KeyOfOpposite,
  NoPointAtFive,
  NoPointAtPrime,
  SignatureByOne,
  SignatureOfBip143,
  HighSignatureOfBip143,
  SignatureOfAnotherHash,
  SignatureByAnotherKey,
};

/// The parameters are those that are published.
pub fn parameters()
    ensures prime { PrimeIsPublished }
    ensures generator { GeneratorIsOnCurve }
{}

/// The definitions give these multiples of the generator.
pub fn multiples()
    ensures twice { TwiceGenerator }
    ensures thrice { ThriceGenerator }
    ensures order { OrderTimesGenerator }
    ensures opposite { OrderLessOneTimesGenerator }
{}

/// They give these keys their points, or none.
pub fn keys()
    ensures generator { KeyOfGenerator }
    ensures opposite { KeyOfOpposite }
    ensures no_root { NoPointAtFive }
    ensures not_below_prime { NoPointAtPrime }
{}

/// They take these signatures, and no others that are alike.
pub fn signatures()
    ensures by_one { SignatureByOne }
    ensures good { SignatureOfBip143 }
    ensures high { HighSignatureOfBip143 }
    ensures another_hash { SignatureOfAnotherHash }
    ensures another_key { SignatureByAnotherKey }
{}
