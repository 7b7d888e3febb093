//! Examples of the definitions.

ghost use Rattle.ms_witness.specs.Examples.{SmallWitnesses, WitnessFaults, FirstFaults};

/// The definitions read these bytes, or refuse them so.
pub fn readings()
    ensures small { SmallWitnesses }
    ensures faults { WitnessFaults }
    ensures first { FirstFaults }
{}
