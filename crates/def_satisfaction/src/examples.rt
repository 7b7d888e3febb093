//! Examples of satisfactions.

ghost use Rattle.def_satisfaction.specs.Examples.{
  TwoOfThree,
  TwoOfThreeWitness,
  LateKey,
  VoidLock,
  TimeLock,
  ByPreimages,
  BySignatures,
  RightBranch,
  LeftBranch,
  LockMet,
  LockUnmet,
  ZerosAsPreimage,
  ZerosAreNoMiss,
  SeveralSignatures,
  EitherSignature,
  BothOfOrB,
};

/// These stacks satisfy these miniscripts, and weigh so much.
pub fn satisfactions()
    ensures two_of_three { TwoOfThree }
    ensures two_of_three_witness { TwoOfThreeWitness }
    ensures late_key { LateKey }
    ensures void_lock { VoidLock }
    ensures time_lock { TimeLock }
    ensures by_preimages { ByPreimages }
    ensures by_signatures { BySignatures }
    ensures right_branch { RightBranch }
    ensures left_branch { LeftBranch }
    ensures lock_met { LockMet }
    ensures lock_unmet { LockUnmet }
    ensures zeros_as_preimage { ZerosAsPreimage }
    ensures zeros_are_no_miss { ZerosAreNoMiss }
    ensures several_signatures { SeveralSignatures }
    ensures either_signature { EitherSignature }
    ensures both_of_or_b { BothOfOrB }
{}
