//! Examples of the definitions.

ghost use Rattle.def_psbt.specs.Examples.{
  BareIsRead,
  NoInputsAreRead,
  TwoOfThreeIsRead,
  PreviousTransactionIsRead,
  PreimageIsRead,
  ThreeInputsAreRead,
  Base64IsRead,
  SourceRefusals,
  SizeRefusals,
  PairRefusals,
  ValueRefusals,
  UpdatedIsRead,
  LaterIsRead,
  LockTimes,
  VersionRefusals,
  NeededRefusals,
  JoinedRefusals,
  OutputRefusals,
};

/// The definitions read these PSBTs.
pub fn readings()
    ensures bare { BareIsRead }
    ensures no_inputs { NoInputsAreRead }
    ensures two_of_three { TwoOfThreeIsRead }
    ensures previous_transaction { PreviousTransactionIsRead }
    ensures preimage { PreimageIsRead }
    ensures three_inputs { ThreeInputsAreRead }
    ensures base64 { Base64IsRead }
{}

/// The definitions refuse these sources so.
pub fn refusals()
    ensures source { SourceRefusals }
    ensures size { SizeRefusals }
    ensures pair { PairRefusals }
    ensures value { ValueRefusals }
{}

/// The definitions read these PSBTs of version 2.
pub fn later_readings()
    ensures updated { UpdatedIsRead }
    ensures bare { LaterIsRead }
    ensures lock_times { LockTimes }
{}

/// The definitions refuse these sources by the rules of version 2.
pub fn later_refusals()
    ensures version { VersionRefusals }
    ensures needed { NeededRefusals }
    ensures joined { JoinedRefusals }
    ensures output { OutputRefusals }
{}
