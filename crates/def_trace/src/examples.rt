//! Examples of traces, and of who writes the instructions of a text.

ghost use Rattle.def_trace.specs.Examples.{
  BranchesInside,
  PassedPushes,
  BothStacks,
  NothingChanged,
  GoodSignatures,
  StoppedByVerify,
  StoppedBehindGood,
  Unread,
  NoLine,
  ReadBack,
  Choices,
  VerifyForms,
  Threshold,
  WithPlaces,
  Listed,
};

/// The traces of some runs, as they are written.
pub fn traces()
    ensures branches_inside { BranchesInside }
    ensures passed_pushes { PassedPushes }
    ensures both_stacks { BothStacks }
    ensures nothing_changed { NothingChanged }
    ensures good_signatures { GoodSignatures }
    ensures stopped_by_verify { StoppedByVerify }
    ensures stopped_behind_good { StoppedBehindGood }
    ensures unread { Unread }
    ensures no_line { NoLine }
    ensures read_back { ReadBack }
{}

/// Who writes the instructions of some texts, and how that is written.
pub fn writers()
    ensures choices { Choices }
    ensures verify_forms { VerifyForms }
    ensures threshold { Threshold }
    ensures with_places { WithPlaces }
    ensures listed { Listed }
{}
