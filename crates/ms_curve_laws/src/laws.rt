//! What the definitions imply.

ghost use Rattle.ms_curve_laws.specs.Laws.{GeneratorIsPoint, SumIsPoint, MultipleIsPoint, KeyHasItsPoint, NoKeyOfInfinity, PointHasItsKey, KeyIsThatOfItsPoint};

/// The generator is a point of the curve, and so are the sum of two points and the multiples of one.
pub fn points()
    ensures generator { GeneratorIsPoint }
    ensures sum { SumIsPoint }
    ensures multiple { MultipleIsPoint }
{}

/// A key has a point exactly where a point has its x and its parity, and each point but infinity is that of exactly one key.
pub fn keys()
    ensures point { KeyHasItsPoint }
    ensures infinity { NoKeyOfInfinity }
    ensures key { PointHasItsKey }
    ensures only { KeyIsThatOfItsPoint }
{}
