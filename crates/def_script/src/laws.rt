//! What the definitions imply.

ghost use Rattle.def_script.specs.Laws.{ByteStandsForOp, SpellingIsReadBack, NumberIsReadBack, NumberHasOneSpelling, NonzeroIsTrue, SizeIsReadBack, SizeHasOneSpelling};

/// What was spelled is read back.
pub fn readings()
    ensures opcode { ByteStandsForOp }
    ensures script { SpellingIsReadBack }
    ensures number { NumberIsReadBack }
    ensures one_number { NumberHasOneSpelling }
    ensures nonzero { NonzeroIsTrue }
    ensures size { SizeIsReadBack }
    ensures one_size { SizeHasOneSpelling }
{}
