//! Examples of policies.

ghost use Rattle.def_policy.specs.Examples.{
  LateKey,
  KeysOrLock,
  HashesOrKeys,
  Constants,
  AndOr,
  Pairs,
  Multi,
  Thresholds,
  Joined,
  Truths,
  SoMany,
  Printed,
};

/// The policies of these miniscripts.
pub fn policies()
    ensures late_key { LateKey }
    ensures keys_or_lock { KeysOrLock }
    ensures hashes_or_keys { HashesOrKeys }
    ensures constants { Constants }
    ensures and_or { AndOr }
    ensures pairs { Pairs }
    ensures multi { Multi }
{}

/// What these policies are when they are made simple.
pub fn simple()
    ensures thresholds { Thresholds }
    ensures joined { Joined }
{}

/// When these policies are true, and how they are printed.
pub fn truth()
    ensures truths { Truths }
    ensures so_many { SoMany }
    ensures printed { Printed }
{}
