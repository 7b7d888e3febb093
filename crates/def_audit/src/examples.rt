//! Examples of derivations.

ghost use Rattle.def_audit.specs.Examples.{
  BothKeys,
  OneKey,
  AndOrIsExtra,
  AndVIsExtra,
  AndBIsExtra,
  ThreshIsExtra,
  JIsExtra,
  HashIsExtra,
  OtherKeyIsExtra,
};

/// These stacks satisfy or dissatisfy these miniscripts by these steps.
pub fn derivations()
    ensures both_keys { BothKeys }
    ensures one_key { OneKey }
    ensures and_or { AndOrIsExtra }
    ensures and_v { AndVIsExtra }
    ensures and_b { AndBIsExtra }
    ensures thresh { ThreshIsExtra }
    ensures j { JIsExtra }
    ensures hash { HashIsExtra }
    ensures other_key { OtherKeyIsExtra }
{}
