//! What the definitions imply.

ghost use Rattle.def_hash.specs.Laws.{DigestHasItsLength, DigestHasBytes};

/// A digest is a byte string of its function's length.
pub fn digests()
    ensures length { DigestHasItsLength }
    ensures bytes { DigestHasBytes }
{}
