//! Examples of limits.

ghost use Rattle.def_limits.specs.Examples.{
  KeyLimits,
  ChainLimits,
  KeysLimits,
  KeyHashLimits,
  LockLimits,
  ThresholdLimits,
  EitherLimits,
  LockedThresholdLimits,
  HashThresholdLimits,
  FourChildrenLimits,
  EachByItself,
  ZeroLimits,
};

/// These miniscripts have these limits.
pub fn limits()
    ensures key_limits { KeyLimits }
    ensures chain_limits { ChainLimits }
    ensures keys_limits { KeysLimits }
    ensures key_hash_limits { KeyHashLimits }
    ensures lock_limits { LockLimits }
    ensures threshold_limits { ThresholdLimits }
    ensures either_limits { EitherLimits }
    ensures locked_threshold_limits { LockedThresholdLimits }
    ensures hash_threshold_limits { HashThresholdLimits }
    ensures four_children_limits { FourChildrenLimits }
    ensures each_by_itself { EachByItself }
    ensures zero_limits { ZeroLimits }
{}
