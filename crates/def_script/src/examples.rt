//! Examples of the definitions.

ghost use Rattle.def_script.specs.Examples.{
  SmallPushes,
  SizedPushes,
  LongPushes,
  TruncatedPushes,
  NopIsUnsupported,
  NumberSpellings,
  NumberFaults,
  TruthValues,
  SizeSpellings,
  SizeFaults,
  SmallWitness,
};

/// The definitions give these bytes, numbers and faults.
pub fn spellings()
    ensures small_pushes { SmallPushes }
    ensures sized_pushes { SizedPushes }
    ensures long_pushes { LongPushes }
    ensures truncated_pushes { TruncatedPushes }
    ensures nop_is_unsupported { NopIsUnsupported }
    ensures number_spellings { NumberSpellings }
    ensures number_faults { NumberFaults }
    ensures truth_values { TruthValues }
    ensures size_spellings { SizeSpellings }
    ensures size_faults { SizeFaults }
    ensures small_witness { SmallWitness }
{}
