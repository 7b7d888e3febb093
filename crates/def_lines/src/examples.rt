//! Examples of lines.

ghost use Rattle.def_lines.specs.Examples.{
  NoLine,
  OneFeed,
  TwoLines,
  NoLastFeed,
  CarriageReturn,
  CutInside,
  Plain,
  Spaces,
  Escapes,
  OtherMembers,
  MembersTwice,
  NoWords,
  Ids,
  NotJson,
  Nested,
  NoObject,
  OtherIds,
  OtherTexts,
  OtherWords,
  OtherSources,
  InOrder,
  WithoutId,
  WithIds,
  NoMemory,
  Refusals,
  TellsThree,
  OthersThanTheirs,
  OthersThanRefusals,
};

/// How bytes are cut into lines.
pub fn cut_lines()
    ensures no_line { NoLine }
    ensures one_feed { OneFeed }
    ensures two_lines { TwoLines }
    ensures no_last_feed { NoLastFeed }
    ensures carriage_return { CarriageReturn }
    ensures cut_inside { CutInside }
{}

/// What lines ask.
pub fn questions()
    ensures plain { Plain }
    ensures spaces { Spaces }
    ensures escapes { Escapes }
    ensures other_members { OtherMembers }
    ensures members_twice { MembersTwice }
    ensures no_words { NoWords }
    ensures ids { Ids }
    ensures nested { Nested }
{}

/// Why lines are no questions.
pub fn refusals()
    ensures not_json { NotJson }
    ensures no_object { NoObject }
    ensures other_ids { OtherIds }
    ensures other_texts { OtherTexts }
    ensures other_words { OtherWords }
    ensures other_sources { OtherSources }
    ensures in_order { InOrder }
{}

/// How answers are written.
pub fn answer_lines()
    ensures without_id { WithoutId }
    ensures with_ids { WithIds }
    ensures no_memory { NoMemory }
    ensures refused { Refusals }
{}

/// Which lines answer a line, and that others don't.
pub fn answered()
    ensures told { TellsThree }
    ensures others { OthersThanTheirs }
    ensures refused { OthersThanRefusals }
{}
