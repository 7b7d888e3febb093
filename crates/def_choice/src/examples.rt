//! Examples of choices.

ghost use Rattle.def_choice.specs.Examples.{
  LightestTwo,
  LateKey,
  TooEarly,
  TimeForBlocks,
  OldVersion,
  VoidLock,
  TimeLock,
  HeightForTime,
  FinalSequence,
  TimeForHeight,
  CheapestOfThreshold,
  StrictOfThreshold,
  CheapestBranch,
  StrictBranch,
  LockMet,
  LockUnmet,
  LockLeft,
  ZerosCannotMiss,
  ZerosAsPreimage,
};
ghost use Rattle.def_assets.specs.Assets.{Assets};
ghost use Rattle.def_choice.specs.TieExamples.{
  TieOfAndOr,
  TieOfOrB,
  TieOfOrC,
  TieOfOrD,
  TieOfOrI,
  TieOfThreshold,
  TieOfMulti,
  TieOfDissatisfactions,
  KeySignsTwice,
};
ghost use Rattle.def_choice.specs.SignatureExamples.{
  ShorterOfTwo,
  FirstOfTwo,
  SeveralOfMulti,
  SeveralOfThreshold,
};
ghost use Rattle.def_choice.specs.TightExamples.{
  HashNeedsNone,
  LockNeedsNone,
  TightBranches,
  TightChildren,
  OtherSigns,
};

/// These satisfactions are chosen.
pub fn choices()
    ensures lightest_two { LightestTwo }
    ensures late_key { LateKey }
    ensures too_early { TooEarly }
    ensures time_for_blocks { TimeForBlocks }
    ensures old_version { OldVersion }
    ensures void_lock { VoidLock }
    ensures time_lock { TimeLock }
    ensures height_for_time { HeightForTime }
    ensures final_sequence { FinalSequence }
    ensures time_for_height { TimeForHeight }
    ensures cheapest_of_threshold { CheapestOfThreshold }
    ensures strict_of_threshold { StrictOfThreshold }
    ensures cheapest_branch { CheapestBranch }
    ensures strict_branch { StrictBranch }
    ensures lock_met { LockMet }
    ensures lock_unmet { LockUnmet }
    ensures lock_left { LockLeft }
    ensures zeros_cannot_miss { ZerosCannotMiss }
    ensures zeros_as_preimage { ZerosAsPreimage }
{}

/// Of options of equal weight the first is chosen.
pub fn ties()
    ensures and_or { TieOfAndOr }
    ensures or_b { TieOfOrB }
    ensures or_c { TieOfOrC }
    ensures or_d { TieOfOrD }
    ensures or_i { TieOfOrI }
    ensures threshold { TieOfThreshold }
    ensures multi { TieOfMulti }
    ensures dissatisfactions { (assets : Assets) → TieOfDissatisfactions assets }
    ensures key_twice { KeySignsTwice }
{}

/// Of several signatures of one key the first of the shortest is chosen.
pub fn signatures()
    ensures shorter_of_two { ShorterOfTwo }
    ensures first_of_two { FirstOfTwo }
    ensures multi { SeveralOfMulti }
    ensures threshold { SeveralOfThreshold }
{}

/// What needs no signature, what is tight, and what another signature changes.
pub fn tightness()
    ensures hash_needs_none { HashNeedsNone }
    ensures lock_needs_none { LockNeedsNone }
    ensures branches { TightBranches }
    ensures children { TightChildren }
    ensures other_signs { OtherSigns }
{}
