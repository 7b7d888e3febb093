//! Laws of the definitions: the body does nothing but call for others, and its contract is the laws.

ghost use Rattle.def_descriptor_answer.specs.Laws.{OneAnswer, OthersAnswerAlike, AnswersHaveStatus};

/// Words and a source have at most one answer, what the source holds counts for `update` alone, and the status of an answer is that of no fault.
pub fn one_answer()
    ensures one { OneAnswer }
    ensures alike { OthersAnswerAlike }
    ensures status { AnswersHaveStatus }
{
    def_descriptor::laws::one_answer();
}
