//! Examples of the hash functions.

ghost use Rattle.def_hash.specs.Examples.{
  RipemdOfNothing,
  RipemdOfAbc,
  RipemdOfTwoBlocks,
  ShaOfAbc,
  ShaOfZeros,
  KeyHashOfGenerator,
  DoubleShaOfHello,
};

/// The definitions give these published digests.
pub fn published_digests()
    ensures ripemd160_of_nothing { RipemdOfNothing }
    ensures ripemd160_of_abc { RipemdOfAbc }
    ensures ripemd160_of_two_blocks { RipemdOfTwoBlocks }
    ensures sha256_of_abc { ShaOfAbc }
    ensures sha256_of_zeros { ShaOfZeros }
    ensures hash160_of_generator { KeyHashOfGenerator }
    ensures hash256_of_hello { DoubleShaOfHello }
{}
