//! Examples that meet what the promises presuppose.

ghost use Rattle.def_promises.specs.Examples.{
  AcceptanceIsMet,
  AllIsMet,
  LongestIsMet,
  StrictIsMet,
  KeyCanBeChanged,
  NothingIsMet,
  KeyHasLetters,
  OneHasLetters,
  DeepHasLetters,
  HashIsMissed,
};

/// What the promises presuppose is met.
pub fn instances()
    ensures acceptance { AcceptanceIsMet }
    ensures all { AllIsMet }
    ensures longest { LongestIsMet }
    ensures strict { StrictIsMet }
    ensures key_can_be_changed { KeyCanBeChanged }
    ensures nothing { NothingIsMet }
    ensures key_has_letters { KeyHasLetters }
    ensures one_has_letters { OneHasLetters }
    ensures deep_has_letters { DeepHasLetters }
    ensures hash_is_missed { HashIsMissed }
{}
