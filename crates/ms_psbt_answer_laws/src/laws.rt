//! What the definitions imply.

ghost use Rattle.ms_psbt_answer_laws.specs.Laws.{
  OneAnswer,
  OneReading,
  LeavesOthers,
  KeepsPairs,
  NoneIsReady,
  WrittenAgain,
};

/// Words and a source have at most one answer, and an input one reading.
pub fn answers()
    ensures one { OneAnswer }
    ensures one_reading { OneReading }
{}

/// What is written of inputs, and of those that were written.
pub fn writings()
    ensures leaves_others { LeavesOthers }
    ensures keeps_pairs { KeepsPairs }
    ensures none_is_ready { NoneIsReady }
    ensures written_again { WrittenAgain }
{}
