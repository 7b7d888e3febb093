//! What the definitions imply.

ghost use Rattle.def_lines.specs.Laws.{Alone, One, ReadsReplies, ReportsTextsPlainly};
ghost use Rattle.ms_psbt_line_laws.specs.Psbt.{psbt_answers};

/// A file of questions may be cut at line feeds, and its parts be answered apart.
pub fn alone()
    ensures { Alone psbt_answers }
{}

/// To a text in UTF-8 the reports of `msat-psbt` have only characters that JSON writes as they are, and line feeds. To a PSBT in
/// bytes, which is no such text, `finalize` writes one in bytes.
pub fn plain()
    ensures { ReportsTextsPlainly psbt_answers }
{}

/// There are as many answers as lines, and each is a line of JSON that tells the status, the report and the id of what answers its line.
pub fn one()
    ensures { One psbt_answers }
{}

/// Whoever reads an answer's line reads what answers its line.
pub fn reads()
    ensures { ReadsReplies psbt_answers }
{}
