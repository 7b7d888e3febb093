//! Examples of the definitions: the body does nothing, and its contract is the examples.

ghost use Rattle.def_spend.specs.SignedExamples.{SignedOfTwo, ScriptOfSecond, SignedByType, NoHashType};
ghost use Rattle.def_spend.specs.GoodExamples.{PublishedCounts, HighCounts, OtherTypeCounts, NoTypeCounts};

/// What signatures sign.
pub fn signed()
    ensures of_two { SignedOfTwo }
    ensures script { ScriptOfSecond }
    ensures by_type { SignedByType }
    ensures no_hash_type { NoHashType }
{}

/// Which signatures count.
pub fn counted()
    ensures published { PublishedCounts }
    ensures high { HighCounts }
    ensures other_type { OtherTypeCounts }
    ensures no_type { NoTypeCounts }
{}
