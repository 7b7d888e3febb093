//! Examples of files.

ghost use Rattle.def_files.specs.Examples.{
  NoBytes,
  EndsTooSoon,
  NotUtf8,
  DeepestFile,
  TooDeepFile,
  ListAsFile,
  EmptyFile,
  WholeFile,
  UpperCase,
  GreatestSequence,
  SequenceTooGreat,
  NoWholeNumbers,
  LastCounts,
  WrongElements,
  ShapeFirst,
  NumberBeforeDigits,
  FirstOddDigits,
  OddPreimage,
  NoKey,
  UncompressedKey,
  SignatureTooLong,
  EmptySignature,
  ShortPreimage,
  KeyTwice,
  TwoSignatures,
  SignatureTwice,
  FormatOne,
  OtherFormats,
  VersionBeforeFormat,
  KeyFormFirst,
  TooManyPreimages,
  RunOfOne,
  RunPassesFormat,
  RunOfMore,
  NoScript,
  ScriptOfNumber,
  ScriptOfOneDigit,
  SignaturesFirst,
  TooManySignatures,
  TooManyElements,
};

/// What asset files give.
pub fn asset_files()
    ensures no_bytes { NoBytes }
    ensures ends_too_soon { EndsTooSoon }
    ensures not_utf8 { NotUtf8 }
    ensures deepest_file { DeepestFile }
    ensures too_deep_file { TooDeepFile }
    ensures list_as_file { ListAsFile }
    ensures empty_file { EmptyFile }
    ensures whole_file { WholeFile }
    ensures upper_case { UpperCase }
    ensures greatest_sequence { GreatestSequence }
    ensures sequence_too_great { SequenceTooGreat }
    ensures no_whole_numbers { NoWholeNumbers }
    ensures last_counts { LastCounts }
    ensures wrong_elements { WrongElements }
    ensures shape_first { ShapeFirst }
    ensures number_before_digits { NumberBeforeDigits }
    ensures first_odd_digits { FirstOddDigits }
    ensures odd_preimage { OddPreimage }
    ensures no_key { NoKey }
    ensures uncompressed_key { UncompressedKey }
    ensures signature_too_long { SignatureTooLong }
    ensures empty_signature { EmptySignature }
    ensures short_preimage { ShortPreimage }
    ensures key_twice { KeyTwice }
    ensures two_signatures { TwoSignatures }
    ensures signature_twice { SignatureTwice }
    ensures format_one { FormatOne }
    ensures other_formats { OtherFormats }
    ensures version_before_format { VersionBeforeFormat }
    ensures key_form_first { KeyFormFirst }
    ensures too_many_preimages { TooManyPreimages }
{}

/// What run files give.
pub fn run_files()
    ensures run_of_one { RunOfOne }
    ensures run_passes_format { RunPassesFormat }
    ensures run_of_more { RunOfMore }
    ensures no_script { NoScript }
    ensures script_of_number { ScriptOfNumber }
    ensures script_of_one_digit { ScriptOfOneDigit }
    ensures signatures_first { SignaturesFirst }
    ensures too_many_signatures { TooManySignatures }
    ensures too_many_elements { TooManyElements }
{}
