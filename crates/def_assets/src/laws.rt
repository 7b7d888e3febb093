//! Laws of what assets hold: the body does nothing, and its contract is the laws.

ghost use Rattle.def_assets.specs.Laws.{SignatureIsShortest, SignatureIsFound, OnlySignature};

/// Which signature of a key is found.
pub fn signatures()
    ensures shortest { SignatureIsShortest }
    ensures found { SignatureIsFound }
    ensures only { OnlySignature }
{}
