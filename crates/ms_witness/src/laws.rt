//! What the definitions imply.

ghost use Rattle.ms_witness.specs.Laws.{WitnessIsReadBack, WitnessHasOneSpelling, WitnessIsReplayed};

/// A witness is read back, has one spelling, and is replayed as the run of its Script.
pub fn witnesses()
    ensures read_back { WitnessIsReadBack }
    ensures one_spelling { WitnessHasOneSpelling }
    ensures replayed { WitnessIsReplayed }
{}
