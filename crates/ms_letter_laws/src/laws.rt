//! What the letters of the types of a miniscript mean.

ghost use Rattle.def_promises.specs.Letters.{LettersHold};

/// The letters of each node's type say of all satisfactions and dissatisfactions what BIP 379 says of them.
pub fn letters()
    ensures letters { LettersHold }
{}
