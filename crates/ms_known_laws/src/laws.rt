//! What the definitions imply.

ghost use Rattle.ms_known_laws.specs.Known.{KnowsKnown};

/// What a descriptor says of its outputs are Scripts that can be spelled, and keys of which none stands twice, each with an origin that can be spelled:
/// what the laws of updated PSBTs ask of what is known.
pub fn outputs()
    ensures { KnowsKnown }
{}
