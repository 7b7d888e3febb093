//! What the definitions imply.

ghost use Rattle.ms_answer_laws.specs.Laws.{
  OneForm,
  FormOrNone,
  OneAnswer,
  SomeAnswer,
  AnswersHaveStatus,
  NoReadingIsOfDecode,
  NotAcceptedIsOfWitness,
  WalkedAreSteps,
  AnswerWithoutSource,
  StatusWithoutSource,
  StatusWithSource,
  LongAssetFile,
  LongRunFile,
  LongPlanFile,
  LongAuditFile,
  LongTraceFile,
  LongTextTraceFile,
  InstructionsStand,
  GeneratedIsRead,
  GeneratedIsSane,
  GeneratedAreAssets,
  GeneratedIsSatisfied,
  ItIsTheHeight,
  ItIsTheOnlyHeight,
};

/// Words have one form or none, and words that are texts have exactly one answer.
pub fn answers()
    ensures one_form { OneForm }
    ensures form_or_none { FormOrNone }
    ensures one_answer { OneAnswer }
    ensures some_answer { SomeAnswer }
    ensures status { AnswersHaveStatus }
    ensures no_reading { NoReadingIsOfDecode }
    ensures not_accepted { NotAcceptedIsOfWitness }
{}

/// Which answers need the source, and what comes of a long one.
pub fn sources()
    ensures without { AnswerWithoutSource }
    ensures status_without { StatusWithoutSource }
    ensures status_with { StatusWithSource }
    ensures long_asset_file { LongAssetFile }
    ensures long_run_file { LongRunFile }
    ensures long_plan_file { LongPlanFile }
    ensures long_audit_file { LongAuditFile }
    ensures long_trace_file { LongTraceFile }
    ensures long_text_trace_file { LongTextTraceFile }
{}

/// What a walk finds are the steps of an audit.
pub fn audits()
    ensures walked { WalkedAreSteps }
{}

/// The instructions that are listed stand where that is told.
pub fn listings()
    ensures stand { InstructionsStand }
{}

/// What is generated: a text that is read as the tree, a sane tree, and assets that satisfy it.
pub fn generator()
    ensures read { GeneratedIsRead }
    ensures sane { GeneratedIsSane }
    ensures assets { GeneratedAreAssets }
    ensures satisfied { GeneratedIsSatisfied }
{}

/// The height that reports tell is that of the tree.
pub fn heights()
    ensures is { ItIsTheHeight }
    ensures only { ItIsTheOnlyHeight }
{}
