//! What the definitions imply.

ghost use Rattle.def_types.specs.Laws.{
  CorrectnessIsTyped,
  CorrectnessIsFirst,
  MalleabilityIsTyped,
  MalleabilityIsFirst,
  TypedMeans,
  NonMalleableMeans,
};

/// A type, where there is one, is what the rows give, and there is one exactly where they require nothing
/// that is false. A refusal is the first requirement that is false: by the number of its node, and then in
/// the order of the row.
pub fn types()
    ensures correctness_of { CorrectnessIsTyped }
    ensures correctness_first { CorrectnessIsFirst }
    ensures malleability_of { MalleabilityIsTyped }
    ensures malleability_first { MalleabilityIsFirst }
    ensures typed { TypedMeans }
    ensures non_malleable { NonMalleableMeans }
{}
