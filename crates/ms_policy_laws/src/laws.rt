//! What the definitions imply.

ghost use Rattle.def_policy.specs.Laws.{PolicyOfSane, SaneWantsKey};
ghost use Rattle.ms_policy_laws.specs.Locks.{OneTransactionMeets};

/// The policy of a sane miniscript is true of assets exactly where they make a canonical satisfaction.
pub fn satisfied()
    ensures { PolicyOfSane }
{}

/// The policy of a sane miniscript wants the signature of one key at least.
pub fn signed()
    ensures { SaneWantsKey }
{}

/// Where some keys suffice for it with every lock met, the locks of one transaction are enough.
pub fn met()
    ensures { OneTransactionMeets }
{}
