//! What the definitions imply.

ghost use Rattle.ms_key_laws.specs.Public.{KeysArePublic};
ghost use Rattle.ms_key_laws.specs.Sums.{TextsHaveSums, TextsAreReadWithSums};
ghost use Rattle.ms_key_laws.specs.Laws.{TextsReadAlike, KeysHaveForm, TextsAreUtf8, TextsAreRead, TreesDifferInKeys};

/// Texts of the same pieces with other keys in them are read alike.
pub fn texts()
    ensures { TextsReadAlike }
{}

/// Each key expression of a descriptor names a public key, which has a point.
pub fn expressions()
    ensures { KeysArePublic }
{}

/// The text of a descriptor has a checksum, since all its characters are of BIP 380's set, and is read as the same one with it.
pub fn sums()
    ensures have { TextsHaveSums }
    ensures again { TextsAreReadWithSums }
{}

/// At each branch and index where its expressions have keys, `msat` reads the text of a descriptor's miniscript, and its trees differ in their keys alone.
pub fn places()
    ensures keys { KeysHaveForm }
    ensures utf8 { TextsAreUtf8 }
    ensures read { TextsAreRead }
    ensures trees { TreesDifferInKeys }
{}
