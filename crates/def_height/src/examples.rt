//! Examples of heights.

ghost use Rattle.def_height.specs.Examples.{
  KeyHeight,
  ChainHeight,
  KeysHeight,
  KeyHashHeight,
  LockHeight,
  ThresholdHeight,
  EitherHeight,
  LockedThresholdHeight,
  HashThresholdHeight,
  TwoHashesHeight,
  ManyKeysHeight,
  MostOpsHeight,
  LargestHeight,
  ZeroHeight,
};

/// These miniscripts have these heights.
pub fn heights()
    ensures key_height { KeyHeight }
    ensures chain_height { ChainHeight }
    ensures keys_height { KeysHeight }
    ensures key_hash_height { KeyHashHeight }
    ensures lock_height { LockHeight }
    ensures threshold_height { ThresholdHeight }
    ensures either_height { EitherHeight }
    ensures locked_threshold_height { LockedThresholdHeight }
    ensures hash_threshold_height { HashThresholdHeight }
    ensures two_hashes_height { TwoHashesHeight }
    ensures many_keys_height { ManyKeysHeight }
    ensures most_ops_height { MostOpsHeight }
    ensures largest_height { LargestHeight }
    ensures zero_height { ZeroHeight }
{}
