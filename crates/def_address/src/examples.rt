//! Examples of the definitions.

ghost use Rattle.def_address.specs.Examples.{
  Base58OfThree,
  Base58OfZeros,
  Base58OfAddress,
  BytesOfText,
  NoBytesOfZero,
  AddressOfKey,
  AddressOfScript,
  TestAddressOfScript,
  TestAddressOfHash,
  NoAddressOfOther,
  ScriptOfUpperCase,
  NoScriptOfBothCases,
  NoScriptOfOtherSum,
  NoScriptOfLength,
  NoScriptOfBits,
  NoScriptOfNetwork,
  ScriptOfHash,
  SumOfRaw,
  NoSumOfLineEnd,
};

/// The definitions give these bytes their texts in Base58, and these texts their bytes.
pub fn texts()
    ensures three { Base58OfThree }
    ensures zeros { Base58OfZeros }
    ensures address { Base58OfAddress }
    ensures bytes { BytesOfText }
    ensures none { NoBytesOfZero }
{}

/// They give these outputs their addresses.
pub fn addresses()
    ensures key { AddressOfKey }
    ensures script { AddressOfScript }
    ensures test { TestAddressOfScript }
    ensures hash { TestAddressOfHash }
    ensures other { NoAddressOfOther }
{}

/// They give these addresses their outputs, or none.
pub fn scripts()
    ensures upper_case { ScriptOfUpperCase }
    ensures both_cases { NoScriptOfBothCases }
    ensures other_sum { NoScriptOfOtherSum }
    ensures other_length { NoScriptOfLength }
    ensures bits { NoScriptOfBits }
    ensures network { NoScriptOfNetwork }
    ensures hash { ScriptOfHash }
{}

/// They give these descriptors their checksums, or none.
pub fn checksums()
    ensures raw { SumOfRaw }
    ensures line_end { NoSumOfLineEnd }
{}
