//! What the definitions imply.

ghost use Rattle.def_lines.specs.Laws.{One, ReportsPlainly};
ghost use Rattle.def_lines.specs.Msat.{msat_answers};

/// The reports of `msat` have only characters that JSON writes as they are, and line feeds.
pub fn plain()
    ensures { ReportsPlainly msat_answers }
{}

/// There are as many answers as lines, and each is a line of JSON that tells the status, the report and the id of what answers its line.
pub fn one()
    ensures { One msat_answers }
{}
