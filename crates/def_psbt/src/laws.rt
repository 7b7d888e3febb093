//! What the definitions imply.

ghost use Rattle.def_psbt.specs.Laws.{WrittenIsReadBack, ReadIsWritten};

/// A PSBT that was written is read back, and what is read was written so.
pub fn psbts()
    ensures read_back { WrittenIsReadBack }
    ensures one_spelling { ReadIsWritten }
{}
