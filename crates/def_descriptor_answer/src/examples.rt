//! Examples of the definitions: the body does nothing, and its contract is the examples.

ghost use Rattle.def_descriptor_answer.specs.Examples.{NoDescriptor, LastIndexTooLarge, LeadingZero, OptionsInOrder, UpdateWords, NoForm, NoText, NoTextToUpdate};

/// What words ask, and whole answers.
pub fn words()
    ensures no_descriptor { NoDescriptor }
    ensures last_index { LastIndexTooLarge }
    ensures leading_zero { LeadingZero }
    ensures options { OptionsInOrder }
    ensures updates { UpdateWords }
    ensures no_form { NoForm }
    ensures no_text { NoText }
    ensures no_text_either { NoTextToUpdate }
{}
