//! Examples of the definitions.

ghost use Rattle.def_combine.specs.Examples.{OneIsCombined, NewKeysFollow, ThreeAreCombined, LineRefusals, OtherRefusals, OtherLockTime};

/// These sources are combined so.
pub fn combinations()
    ensures one { OneIsCombined }
    ensures new_keys { NewKeysFollow }
    ensures three { ThreeAreCombined }
{}

/// These are refused so.
pub fn refusals()
    ensures line { LineRefusals }
    ensures other { OtherRefusals }
    ensures lock_time { OtherLockTime }
{}
