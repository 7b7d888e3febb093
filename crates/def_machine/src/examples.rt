//! Examples of runs.

ghost use Rattle.def_machine.specs.FaultRows.{
  ScriptTooLong,
  GivenElementTooLong,
  PushTooLong,
  PushWithoutLength,
  PushWithoutByte,
  LongPushOfOne,
  LongPushNotCarriedOut,
  NopNotCarriedOut,
  TooManyOpcodes,
  MostOpcodes,
  SkippedOpcodeCounted,
  MostOpcodesWithKeys,
  TooManyOpcodesWithKeys,
  DupOfNothing,
  NothingMovedBack,
  IfWithoutEndIf,
  EndIfWithoutIf,
  ElseWithoutIf,
  IfOfTwo,
  IfOfTwoBytes,
  VerifyOfFalse,
  NumberWithZeroByte,
  NumberOfFiveBytes,
  ShortKey,
  KeyOfOtherForm,
  EmptySignature,
  UnknownSignature,
  KnownSignature,
  SignaturesOutOfOrder,
  ExtraElementOfOne,
  TooManyKeys,
  LessThanNoKeys,
  TooManySignatures,
  LessThanNoSignatures,
  TooManyElements,
  TooManyElementsOnBoth,
  TwoElementsLeft,
  NoElementLeft,
  NegativeZeroLeft,
};
ghost use Rattle.def_machine.specs.LockRows.{
  LockOfMinusOne,
  LockOfOne,
  LockOfTwo,
  LockOfHeightAtTime,
  LockOfTime,
  LockWithFinalSequence,
  DelayOfMinusOne,
  VoidDelay,
  DelayOfBlocks,
  DelayTooLong,
  DelayOfBlocksAtTime,
  DelayOfTime,
  DelayAtVoidSequence,
  DelayInVersionOne,
  DelayOutsideMask,
};
ghost use Rattle.def_machine.specs.FragmentRows.{
  BothOfOrB,
  WrongSignatureInOrB,
  TwoOfThree,
  KeyHashAndLock,
  KeyHashBeforeLock,
  PreimageOfZeros,
};

/// Each fault, with the place where it comes, and runs that just pass.
pub fn faults()
    ensures script_too_long { ScriptTooLong }
    ensures given_element_too_long { GivenElementTooLong }
    ensures push_too_long { PushTooLong }
    ensures push_without_length { PushWithoutLength }
    ensures push_without_byte { PushWithoutByte }
    ensures long_push_of_one { LongPushOfOne }
    ensures long_push_not_carried_out { LongPushNotCarriedOut }
    ensures nop_not_carried_out { NopNotCarriedOut }
    ensures too_many_opcodes { TooManyOpcodes }
    ensures most_opcodes { MostOpcodes }
    ensures skipped_opcode_counted { SkippedOpcodeCounted }
    ensures most_opcodes_with_keys { MostOpcodesWithKeys }
    ensures too_many_opcodes_with_keys { TooManyOpcodesWithKeys }
    ensures dup_of_nothing { DupOfNothing }
    ensures nothing_moved_back { NothingMovedBack }
    ensures if_without_end_if { IfWithoutEndIf }
    ensures end_if_without_if { EndIfWithoutIf }
    ensures else_without_if { ElseWithoutIf }
    ensures if_of_two { IfOfTwo }
    ensures if_of_two_bytes { IfOfTwoBytes }
    ensures verify_of_false { VerifyOfFalse }
    ensures number_with_zero_byte { NumberWithZeroByte }
    ensures number_of_five_bytes { NumberOfFiveBytes }
    ensures short_key { ShortKey }
    ensures key_of_other_form { KeyOfOtherForm }
    ensures empty_signature { EmptySignature }
    ensures unknown_signature { UnknownSignature }
    ensures known_signature { KnownSignature }
    ensures signatures_out_of_order { SignaturesOutOfOrder }
    ensures extra_element_of_one { ExtraElementOfOne }
    ensures too_many_keys { TooManyKeys }
    ensures less_than_no_keys { LessThanNoKeys }
    ensures too_many_signatures { TooManySignatures }
    ensures less_than_no_signatures { LessThanNoSignatures }
    ensures too_many_elements { TooManyElements }
    ensures too_many_elements_on_both { TooManyElementsOnBoth }
    ensures two_elements_left { TwoElementsLeft }
    ensures no_element_left { NoElementLeft }
    ensures negative_zero_left { NegativeZeroLeft }
{}

/// Timelocks that hold, and others that fail one test alone.
pub fn timelocks()
    ensures lock_of_minus_one { LockOfMinusOne }
    ensures lock_of_one { LockOfOne }
    ensures lock_of_two { LockOfTwo }
    ensures lock_of_height_at_time { LockOfHeightAtTime }
    ensures lock_of_time { LockOfTime }
    ensures lock_with_final_sequence { LockWithFinalSequence }
    ensures delay_of_minus_one { DelayOfMinusOne }
    ensures void_delay { VoidDelay }
    ensures delay_of_blocks { DelayOfBlocks }
    ensures delay_too_long { DelayTooLong }
    ensures delay_of_blocks_at_time { DelayOfBlocksAtTime }
    ensures delay_of_time { DelayOfTime }
    ensures delay_at_void_sequence { DelayAtVoidSequence }
    ensures delay_in_version_one { DelayInVersionOne }
    ensures delay_outside_mask { DelayOutsideMask }
{}

/// Runs of whole miniscript expressions.
pub fn fragments()
    ensures both_of_or_b { BothOfOrB }
    ensures wrong_signature_in_or_b { WrongSignatureInOrB }
    ensures two_of_three { TwoOfThree }
    ensures key_hash_and_lock { KeyHashAndLock }
    ensures key_hash_before_lock { KeyHashBeforeLock }
    ensures preimage_of_zeros { PreimageOfZeros }
{}
