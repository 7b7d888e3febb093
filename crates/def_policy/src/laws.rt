//! What the definitions imply.

ghost use Rattle.def_policy.specs.Laws.{SimpleKeepsTruth, SimpleIsSimple, SimpleIsKept, SimpleOnce, SimpleIsSmaller, PlainIsSmall, LeastKeysAreLeast, OneLeast};

/// Making a policy simple changes no truth, and gives a simple one, which is no larger and no deeper. A simple one is left
/// as it is.
pub fn simple()
    ensures truth { SimpleKeepsTruth }
    ensures form { SimpleIsSimple }
    ensures kept { SimpleIsKept }
    ensures once { SimpleOnce }
    ensures smaller { SimpleIsSmaller }
{}

/// The policy of a tree is at most twice as large and as deep as the tree.
pub fn plain()
    ensures { PlainIsSmall }
{}

/// What the smallest set of keys says is the least number of keys, and the only one.
pub fn least_keys()
    ensures least { LeastKeysAreLeast }
    ensures one { OneLeast }
{}
