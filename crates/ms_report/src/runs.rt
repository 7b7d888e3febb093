//! What is printed of a run.
ghost use Rattle.std.specs.Prelude.{◌≡◌, ◌++◌, IfOk, OnOk};
ghost use Rattle.std.specs.String.{string_bytes};
ghost use Rattle.def_machine.specs.Run.{accepted, refused};
ghost use Rattle.def_answer.specs.Audit.{not_accepted_line as the_not_accepted_line};
ghost use Rattle.def_answer.specs.Run.{run_report, check_line, accepted_line as the_accepted_line};

use crate::names::script_fault_name;
use ms_interp::{RunReport, ScriptFault};
use ms_oracle::SigPair;
use std::alloc::{AllocError, Global};

/// The opcodes and the peak of an accepted run, and a line for each pair that was found good: what `run` prints.
/// `AllocError` comes only where memory is wanting.
#[tactic(auto, unfolding(def_answer::specs::Run::run_report))]
pub fn accepted_report(alloc: Global, report: &RunReport) -> Result<String, AllocError>
    ensures { IfOk result (λ text. string_bytes text ≡ run_report (accepted report.now.ops report.now.peak report.now.checks)) }
{
    let mut text = accepted_line(alloc, report.ops, report.peak)?;
    let checks = report.checks.as_slice();
    for pair in checks {
        push_check(alloc, &mut text, pair)?;
    }
    Ok(text)
}

/// The opcodes and the peak of an accepted run: the first line that `run` prints. `AllocError` comes only where memory is
/// wanting.
pub fn accepted_line(alloc: Global, ops: u32, peak: u32) -> Result<String, AllocError>
    ensures { IfOk result (λ line. string_bytes line ≡ the_accepted_line ops peak) }
{
    format!(in alloc; "accepted ops {ops} peak {peak}\n")
}

/// The fault of a refused run, and the number of its instruction: what `run` prints. `AllocError` comes only where
/// memory is wanting.
#[tactic(auto, unfolding(def_answer::specs::Run::run_report))]
pub fn refused_report(alloc: Global, fault: ScriptFault, place: u32) -> Result<String, AllocError>
    ensures { IfOk result (λ text. string_bytes text ≡ run_report (refused fault place)) }
{
    let name = script_fault_name(fault);
    format!(in alloc; "refused script {name} at {place}\n")
}

/// The line of a run that was refused, where the run is that of a text: its fault, and the number of its instruction.
/// `AllocError` comes only where memory is wanting.
pub fn not_accepted_line(
    alloc: Global,
    fault: ScriptFault,
    place: u32,
) -> Result<String, AllocError>
    ensures { IfOk result (λ line. string_bytes line ≡ the_not_accepted_line fault place) }
{
    let name = script_fault_name(fault);
    format!(in alloc; "not accepted {name} at {place}\n")
}

/// Adds the line of a pair of a key and a signature.
fn push_check(alloc: Global, text: &mut String, pair: &SigPair) -> Result<(), AllocError>
    ensures { OnOk result (string_bytes text.new ≡ string_bytes text.old ++ check_line pair.now) }
{
    let (key, sig) = (
        hex::encode(alloc, pair.key())?,
        hex::encode(alloc, pair.sig())?,
    );
    text.push_str("check ")?;
    text.push_str(&key)?;
    text.push(' ')?;
    text.push_str(&sig)?;
    text.push('\n')
}
