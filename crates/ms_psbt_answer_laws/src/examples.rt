//! Examples of answers: the body does nothing, and its contract is the examples.

ghost use Rattle.ms_psbt_answer_laws.specs.Rows.{
  NoForm,
  Refused,
  InspectReady,
  InspectOneSignature,
  InspectLightest,
  InspectTooEarly,
  InspectNoReading,
  InspectUnfit,
  InspectTypes,
  InspectOthers,
  InspectNested,
  FinalizesTwoOfThree,
  FinalizesNested,
  FinalizesBase64,
  FinalizesOthers,
  Extracts,
  ExtractsNested,
  NotFinal,
  HashesOfTypes,
  HashesOfNone,
};

/// Answers to words without a form, and to sources that are refused.
pub fn refusals()
    ensures no_form { NoForm }
    ensures refused { Refused }
{}

/// Answers to `inspect`.
pub fn inspections()
    ensures ready { InspectReady }
    ensures one_signature { InspectOneSignature }
    ensures lightest { InspectLightest }
    ensures too_early { InspectTooEarly }
    ensures no_reading { InspectNoReading }
    ensures unfit { InspectUnfit }
    ensures types { InspectTypes }
    ensures others { InspectOthers }
    ensures nested { InspectNested }
{}

/// Answers to `finalize` and `extract`.
pub fn writings()
    ensures two_of_three { FinalizesTwoOfThree }
    ensures nested { FinalizesNested }
    ensures base64 { FinalizesBase64 }
    ensures others { FinalizesOthers }
    ensures extracts { Extracts }
    ensures extracts_nested { ExtractsNested }
    ensures not_final { NotFinal }
{}

/// Answers to `hashes`.
pub fn hashes()
    ensures of_types { HashesOfTypes }
    ensures of_none { HashesOfNone }
{}
