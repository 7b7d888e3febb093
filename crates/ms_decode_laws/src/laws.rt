//! What a Script can be read as.

ghost use Rattle.def_decode.specs.Laws.{EachIsDecoded, OneIsDecoded, DecodedIsAlike};
ghost use Rattle.ms_decode_laws.specs.Printed.{DecodedIsReadBack};

/// A Script that can be read as a valid miniscript can be read as one that is nested to the right, and as no other such
/// one. That one has the type, the limits and the malleability properties of each that the Script can be read as, and is
/// sane exactly where one with the same keys is. Its printed form is read as it.
pub fn decoding()
    ensures each { EachIsDecoded }
    ensures one { OneIsDecoded }
    ensures alike { DecodedIsAlike }
    ensures read_back { DecodedIsReadBack }
{}
