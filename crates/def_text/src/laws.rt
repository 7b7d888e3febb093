//! Laws of the definitions: the body does nothing, and its contract is the laws.

ghost use Rattle.def_text.specs.Laws.{OneTree, OneOffsetEach, OneRefusal, NoneBesideTree, SomeAnswer, PrintedIsSpelled, SpelledInRange};

/// A text has exactly one answer, a tree with its offsets or a refusal, but that want of memory may come in place of any.
pub fn one_answer()
    ensures tree { OneTree }
    ensures offsets { OneOffsetEach }
    ensures refusal { OneRefusal }
    ensures apart { NoneBesideTree }
    ensures some { SomeAnswer }
{}

/// The printed form of a tree spells it.
pub fn printed_spells()
    ensures { PrintedIsSpelled }
{}

/// A tree that a text spells is in range.
pub fn spelled_in_range()
    ensures { SpelledInRange }
{}
