//! Examples of answers.

ghost use Rattle.ms_answer_laws.specs.TextExamples.{
  NoForm,
  ScriptOfKey,
  ScriptOfOne,
  ScriptOfSameKey,
  CheckOfKey,
  CheckOfChain,
  CheckOfZero,
  CheckOfEither,
  Unspelled,
  TooDeepOrLong,
  BrokenRules,
  NotSane,
};
ghost use Rattle.ms_answer_laws.specs.PolicyExamples.{
  PolicyOfLateKey,
  PolicyOfLock,
  PolicyOfHashes,
  PolicyOfZero,
  PolicyRefused,
};
ghost use Rattle.ms_answer_laws.specs.PlanExamples.{
  ShortestTwo,
  LockCounts,
  TooFewKeys,
  RefusedPlanFiles,
  PlanRefused,
  PlanFileTooLong,
};
ghost use Rattle.ms_answer_laws.specs.DecodeExamples.{
  ReadKey,
  ReadChain,
  ReadKeyHash,
  ReadShort,
  NoScript,
};
ghost use Rattle.ms_answer_laws.specs.SatisfyExamples.{
  TwoOfThree,
  ShorterSignature,
  LateKey,
  TooEarly,
  VoidLock,
  TimeLock,
  NoTime,
  StrictThreshold,
  CheapestThreshold,
  StrictEither,
  CheapestEither,
  LockInThreshold,
  LockTooEarly,
  SignaturesForLock,
  ZerosAsPreimage,
  ZerosUnknown,
  TextsFirst,
  ZeroHasNone,
  RefusedFiles,
  RefusedFormats,
  FileTooLong,
};
ghost use Rattle.ms_answer_laws.specs.RunExamples.{
  AcceptedRuns,
  AcceptedSignature,
  FaultLines,
  NullDummyLine,
  LimitLines,
  RefusedRunFiles,
  RunFileTooLong,
};
ghost use Rattle.ms_answer_laws.specs.AuditExamples.{
  BothKeys,
  OneKey,
  NotAccepted,
  OtherBytes,
  AuditedTexts,
  RefusedAuditFiles,
  AuditFileTooLong,
};
ghost use Rattle.ms_answer_laws.specs.TraceExamples.{
  TracedKey,
  TracedFaults,
  TracedChoice,
  TracedRefusals,
  TracedTexts,
  RefusedTraceFiles,
  TraceFileTooLong,
};
ghost use Rattle.ms_answer_laws.specs.AsmExamples.{
  ListedChoice,
  ListedTexts,
  NoFormOfListing,
};
ghost use Rattle.ms_answer_laws.specs.OutlineExamples.{
  OutlinedChoice,
  OutlinedRule,
  OutlinedMalleable,
  OutlinedWords,
};
ghost use Rattle.ms_answer_laws.specs.GenExamples.{
  GenOne,
  GenFour,
};
ghost use Rattle.ms_answer_laws.specs.ConsensusExamples.{
  ScriptByConsensus,
  CheckByConsensus,
  StrictByConsensus,
  CheapestByConsensus,
  RefusedByConsensus,
  TextIsConsensus,
  NoFormByConsensus,
};
ghost use Rattle.ms_answer_laws.specs.SourceExamples.{
  WordsThatRead,
  WordsThatDoNot,
};

/// Answers to words without a form, and to `script TEXT` and `check TEXT`.
pub fn texts()
    ensures no_form { NoForm }
    ensures script_of_key { ScriptOfKey }
    ensures script_of_one { ScriptOfOne }
    ensures script_of_same_key { ScriptOfSameKey }
    ensures check_of_key { CheckOfKey }
    ensures check_of_chain { CheckOfChain }
    ensures check_of_zero { CheckOfZero }
    ensures check_of_either { CheckOfEither }
    ensures unspelled { Unspelled }
    ensures too_deep_or_long { TooDeepOrLong }
    ensures broken_rules { BrokenRules }
    ensures not_sane { NotSane }
{}

/// Answers to `policy TEXT`.
pub fn policies()
    ensures late_key { PolicyOfLateKey }
    ensures lock { PolicyOfLock }
    ensures hashes { PolicyOfHashes }
    ensures zero { PolicyOfZero }
    ensures refused { PolicyRefused }
{}

/// Answers to `plan TEXT`.
pub fn plans()
    ensures shortest_two { ShortestTwo }
    ensures lock_counts { LockCounts }
    ensures too_few_keys { TooFewKeys }
    ensures refused_plan_files { RefusedPlanFiles }
    ensures plan_refused { PlanRefused }
    ensures plan_file_too_long { PlanFileTooLong }
{}

/// Answers to `decode HEX KEY..`.
pub fn decodings()
    ensures key { ReadKey }
    ensures chain { ReadChain }
    ensures key_hash { ReadKeyHash }
    ensures short { ReadShort }
    ensures no_script { NoScript }
{}

/// Answers to `satisfy TEXT` and `satisfy --malleable TEXT`.
pub fn satisfactions()
    ensures two_of_three { TwoOfThree }
    ensures shorter_signature { ShorterSignature }
    ensures late_key { LateKey }
    ensures too_early { TooEarly }
    ensures void_lock { VoidLock }
    ensures time_lock { TimeLock }
    ensures no_time { NoTime }
    ensures strict_threshold { StrictThreshold }
    ensures cheapest_threshold { CheapestThreshold }
    ensures strict_either { StrictEither }
    ensures cheapest_either { CheapestEither }
    ensures lock_in_threshold { LockInThreshold }
    ensures lock_too_early { LockTooEarly }
    ensures signatures_for_lock { SignaturesForLock }
    ensures zeros_as_preimage { ZerosAsPreimage }
    ensures zeros_unknown { ZerosUnknown }
    ensures texts_first { TextsFirst }
    ensures zero_has_none { ZeroHasNone }
    ensures refused_files { RefusedFiles }
    ensures refused_formats { RefusedFormats }
    ensures file_too_long { FileTooLong }
{}

/// Answers to the forms with `--consensus`.
pub fn consensus()
    ensures script_by_consensus { ScriptByConsensus }
    ensures check_by_consensus { CheckByConsensus }
    ensures strict_by_consensus { StrictByConsensus }
    ensures cheapest_by_consensus { CheapestByConsensus }
    ensures refused_by_consensus { RefusedByConsensus }
    ensures text_is_consensus { TextIsConsensus }
    ensures no_form_by_consensus { NoFormByConsensus }
{}

/// Answers to `run`.
pub fn runs()
    ensures accepted_runs { AcceptedRuns }
    ensures accepted_signature { AcceptedSignature }
    ensures fault_lines { FaultLines }
    ensures null_dummy_line { NullDummyLine }
    ensures limit_lines { LimitLines }
    ensures refused_run_files { RefusedRunFiles }
    ensures run_file_too_long { RunFileTooLong }
{}

/// Answers to `audit TEXT`.
pub fn audits()
    ensures both_keys { BothKeys }
    ensures one_key { OneKey }
    ensures not_accepted { NotAccepted }
    ensures other_bytes { OtherBytes }
    ensures texts { AuditedTexts }
    ensures refused_files { RefusedAuditFiles }
    ensures file_too_long { AuditFileTooLong }
{}

/// Answers to `trace` and `trace TEXT`.
pub fn traces()
    ensures key { TracedKey }
    ensures faults { TracedFaults }
    ensures choice { TracedChoice }
    ensures refusals { TracedRefusals }
    ensures texts { TracedTexts }
    ensures refused_files { RefusedTraceFiles }
    ensures file_too_long { TraceFileTooLong }
{}

/// Answers to `asm TEXT`.
pub fn listed()
    ensures choice { ListedChoice }
    ensures texts { ListedTexts }
    ensures no_form { NoFormOfListing }
{}

/// Answers to `tree TEXT`.
pub fn outlined()
    ensures choice { OutlinedChoice }
    ensures rule { OutlinedRule }
    ensures malleable { OutlinedMalleable }
    ensures words { OutlinedWords }
{}

/// Answers to `gen N`.
pub fn generated()
    ensures gen_one { GenOne }
    ensures gen_four { GenFour }
{}

/// Words that need the source, and words that don't.
pub fn sources()
    ensures read { WordsThatRead }
    ensures do_not { WordsThatDoNot }
{}
