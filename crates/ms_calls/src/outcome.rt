//! What a run comes to, and by which rows a stack satisfies a text, as plain numbers.
ghost use Rattle.std.specs.Prelude.{◌≡◌, ◌<◌};
ghost use Rattle.def_tree.specs.Size.{nodes};
ghost use Rattle.ms_tree.specs.Shape.{shape};
ghost use Rattle.ms_calls.specs.Audited.{placed, WRONG_SCRIPT};
ghost use Rattle.ms_calls.specs.Ran.{counted, faulty, number_of_fault as the_number_of_fault, code_without};

use crate::stopping::DONE;
use def_audit::Step;
use ms_interp::ScriptFault;
use ms_text::TextTree;

/// What a run comes to: its counts where it is accepted, or its fault and place where it is refused; the others are 0.
#[repr(C)]
#[derive(Clone, Copy, Debug, PartialEq, Eq)]
pub struct RunOutcome {
    /// How many opcodes above hex 60 there were, with the keys of executed multisignatures.
    pub ops: u32,
    /// The greatest number of elements of both stacks together.
    pub peak: u32,
    /// The number of the fault, from 1 on as `specs/Ran.antt` numbers them, or 0 where there is none.
    pub fault: u32,
    /// The instruction that met it, from 0.
    pub place: u32,
}

impl RunOutcome {
    /// The counts of a run that is accepted.
    pub fn accepted(ops: u32, peak: u32) -> RunOutcome
        ensures { result ≡ counted ops peak }
    {
        RunOutcome {
            ops,
            peak,
            fault: 0,
            place: 0,
        }
    }

    /// The fault and the place of a run that is refused.
    pub fn refused(fault: ScriptFault, place: u32) -> RunOutcome
        ensures { result ≡ faulty (the_number_of_fault fault) place }
    {
        RunOutcome {
            ops: 0,
            peak: 0,
            fault: number_of_fault(fault),
            place,
        }
    }

    /// That the script isn't that of the text.
    pub fn of_another_script() -> RunOutcome
        ensures { result ≡ faulty WRONG_SCRIPT 0 }
    {
        RunOutcome {
            ops: 0,
            peak: 0,
            fault: 23,
            place: 0,
        }
    }

    /// The code of a call with this outcome: that all was done, where there is no fault, and else another one.
    pub fn code(self, otherwise: u32) -> u32
        ensures { result ≡ code_without otherwise self.fault }
    {
        match self.fault {
            0 => DONE,
            _ => otherwise,
        }
    }
}

/// How a node of a text takes part in a satisfaction: whether it is satisfied or dissatisfied, and by which row.
#[repr(C)]
#[derive(Clone, Copy, Debug, PartialEq, Eq)]
pub struct PlacedStep {
    /// The byte of the text where the node's name or letter stands, from 0.
    pub place: u32,
    /// Whether the node is satisfied.
    pub sat: bool,
    /// Whether the row isn't canonical.
    pub extra: bool,
}

impl PlacedStep {
    /// A step of a node of the text.
    pub fn new(text: &TextTree<'_>, step: &Step) -> PlacedStep
        requires { step.now.node < nodes (shape text.now.tree) }
        ensures { result ≡ placed text.now.offsets.items step.now }
    {
        PlacedStep {
            place: text.offset(step.node),
            sat: step.sat,
            extra: step.extra,
        }
    }
}

fn number_of_fault(fault: ScriptFault) -> u32
    ensures { result ≡ the_number_of_fault fault }
{
    match fault {
        ScriptFault::ScriptSize => 1,
        ScriptFault::ElementSize => 2,
        ScriptFault::Truncated => 3,
        ScriptFault::NonMinimalPush => 4,
        ScriptFault::Unsupported => 5,
        ScriptFault::OpCount => 6,
        ScriptFault::StackUnderflow => 7,
        ScriptFault::AltUnderflow => 8,
        ScriptFault::Unbalanced => 9,
        ScriptFault::MinimalIf => 10,
        ScriptFault::Verify => 11,
        ScriptFault::NumberForm => 12,
        ScriptFault::NegativeLock => 13,
        ScriptFault::UnmetLock => 14,
        ScriptFault::KeyForm => 15,
        ScriptFault::NullFail => 16,
        ScriptFault::NullDummy => 17,
        ScriptFault::KeyCount => 18,
        ScriptFault::SigCount => 19,
        ScriptFault::StackSize => 20,
        ScriptFault::CleanStack => 21,
        ScriptFault::EvalFalse => 22,
    }
}
