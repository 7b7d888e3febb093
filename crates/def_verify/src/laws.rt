//! What the definitions imply.

ghost use Rattle.def_verify.specs.Laws.{HashesOfTypes};

/// Of a hash type consensus has signed what BIP 143 says.
pub fn hashes()
    ensures of_types { HashesOfTypes }
{}
