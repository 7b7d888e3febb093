//! What the definitions imply.

ghost use Rattle.def_lines.specs.Laws.{CutsOn, LinesAlone, Alone, ReadsReplies};
ghost use Rattle.def_lines.specs.Msat.{msat_answers};

/// How lines go on from one piece of bytes to the next.
pub fn cuts()
    ensures on { CutsOn }
    ensures alone { LinesAlone }
{}

/// A file of questions may be cut at line feeds, and its parts be answered apart.
pub fn alone()
    ensures { Alone msat_answers }
{}

/// Whoever reads an answer's line reads what answers its line.
pub fn reads()
    ensures { ReadsReplies msat_answers }
{}
