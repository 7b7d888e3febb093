//! Examples of Scripts, of sane miniscripts, and of refusals.

ghost use Rattle.def_sane.specs.Allowed.{ManyKeys, MostKeys, Largest};
ghost use Rattle.def_sane.specs.FirstNodes.{MixedOnes, UnmixedOnes, RepeatedOnes};
ghost use Rattle.def_sane.specs.Scripts.{NumberScripts, KeyScript, ChainScript, KeysScript, KeyHashScript, LockScripts, EitherKeyScript, ThresholdScript, LockedThresholdScript};
ghost use Rattle.def_sane.specs.Refusals.{
  SaneOnes,
  OneNeedsNoSignature,
  VerifyOnTop,
  NoLock,
  MalleableOr,
  MalleableThreshold,
  HeightAndTime,
  HeightOrTimeIsSane,
  SameKey,
  ManyWrappers,
  MostItems,
  TooManyItems,
  MostOps,
  TooManyOps,
  MostSize,
  TooLarge,
};

/// These miniscripts have these Scripts.
pub fn scripts()
    ensures number_scripts { NumberScripts }
    ensures key_script { KeyScript }
    ensures chain_script { ChainScript }
    ensures keys_script { KeysScript }
    ensures key_hash_script { KeyHashScript }
    ensures lock_scripts { LockScripts }
    ensures either_key_script { EitherKeyScript }
    ensures threshold_script { ThresholdScript }
    ensures locked_threshold_script { LockedThresholdScript }
{}

/// These miniscripts are sane, or have these reasons against them.
pub fn reasons()
    ensures sane_ones { SaneOnes }
    ensures one_needs_no_signature { OneNeedsNoSignature }
    ensures verify_on_top { VerifyOnTop }
    ensures no_lock { NoLock }
    ensures malleable_or { MalleableOr }
    ensures malleable_threshold { MalleableThreshold }
    ensures height_and_time { HeightAndTime }
    ensures height_or_time_is_sane { HeightOrTimeIsSane }
    ensures same_key { SameKey }
    ensures many_wrappers { ManyWrappers }
    ensures most_items { MostItems }
    ensures too_many_items { TooManyItems }
    ensures most_ops { MostOps }
    ensures too_many_ops { TooManyOps }
    ensures most_size { MostSize }
    ensures too_large { TooLarge }
{}

/// These miniscripts are valid under consensus and not under policy, or under neither.
pub fn consensus()
    ensures many_keys { ManyKeys }
    ensures most_keys { MostKeys }
    ensures largest_script { Largest }
{}

/// These nodes are the first that mix timelocks, or that repeat a key, or there is none.
pub fn first_nodes()
    ensures mixed_ones { MixedOnes }
    ensures unmixed_ones { UnmixedOnes }
    ensures repeated_ones { RepeatedOnes }
{}
