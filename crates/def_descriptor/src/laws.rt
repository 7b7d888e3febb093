//! Laws of the definitions: the body does nothing, and its contract is the laws.

ghost use Rattle.def_descriptor.specs.Laws.{OneAnswer, SomeAnswer};

/// A text has exactly one answer, a descriptor or a refusal, but that want of memory may come in place of any.
pub fn one_answer()
    ensures one { OneAnswer }
    ensures some { SomeAnswer }
{}
