//! What the definitions imply.

ghost use Rattle.ms_outline_laws.specs.Laws.{LinesAreTheTree};
ghost use Rattle.ms_outline_laws.specs.Letters.{LetterLetsPass};

/// Read back by their depths, the lines of an outline are the tree.
pub fn trees()
    ensures lines { LinesAreTheTree }
{}

/// The text with the letter that fits is read, if it isn't too long or too deep, and the node there breaks no rule.
pub fn letters()
    ensures passes { LetterLetsPass }
{}
