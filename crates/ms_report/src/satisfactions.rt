//! What is printed of a satisfaction.
ghost use Rattle.std.specs.Prelude.{◌≡◌, ◌≤◌, ◌^◌, ◌++◌, flat_map, IfOk, OnOk};
ghost use Rattle.std.specs.String.{string_bytes};
ghost use Rattle.def_machine.specs.Program.{program_of};
ghost use Rattle.def_machine.specs.Run.{accepted};
ghost use Rattle.def_answer.specs.Satisfy.{item_line, replay_line as the_replay_line};
ghost use Rattle.ms_report.specs.Bounds.{bounds_line as the_bounds_line};
ghost use Rattle.ms_report.specs.Satisfactions.{satisfaction_lines};
ghost use Rattle.def_script.specs.Witness.{weight as the_weight};

use crate::limits::{Bounds, bounds_line};
use crate::lines::{push_line, push_output};
use ms_bytes::Stack;
use ms_interp::RunReport;
use std::alloc::{AllocError, Global};

/// The Script, its program, the limits, the satisfaction, its witness, and what the replay of the witness counted: what
/// `satisfy` prints. It demands that `program` is the Script's, and that the stack weighs at most 2^40, as each satisfaction
/// does. `AllocError` comes only where memory is wanting.
#[tactic(auto, unfolding(crate::specs::Satisfactions::satisfaction_lines))]
pub fn satisfaction_report(
    alloc: Global,
    bounds: Bounds,
    script: &[u8],
    program: &[u8; 34],
    stack: &Stack,
    witness: &[u8],
    run: &RunReport,
) -> Result<String, AllocError>
    requires program { program.now ≡ program_of script.now }
    requires light { the_weight stack.now ≤ 2 ^ 40 }
    ensures { IfOk result (λ report. string_bytes report ≡ satisfaction_lines (the_bounds_line bounds) script.now stack.now witness.now (accepted run.now.ops run.now.peak run.now.checks)) }
{
    let mut report = String::new(alloc);
    push_output(alloc, &mut report, script, program)?;
    report.push_str(&bounds_line(alloc, bounds)?)?;
    push_items(alloc, &mut report, stack)?;
    push_line(&mut report, "witness ", &hex::encode(alloc, witness)?)?;
    report.push_str(&replay_line(alloc, stack, run)?)?;
    Ok(report)
}

/// Adds a line for each item of a stack, bottom first.
fn push_items(alloc: Global, report: &mut String, stack: &Stack) -> Result<(), AllocError>
    ensures { OnOk result (string_bytes report.new ≡ string_bytes report.old ++ flat_map item_line stack.now) }
{
    for i in 0..stack.len() {
        push_item(alloc, report, stack.item(i))?;
    }
    Ok(())
}

/// Adds the line of an item. An empty one is `-`.
fn push_item(alloc: Global, report: &mut String, item: &[u8]) -> Result<(), AllocError>
    ensures { OnOk result (string_bytes report.new ≡ string_bytes report.old ++ item_line item.now) }
{
    if item.is_empty() {
        return push_line(report, "item ", "-");
    }
    push_line(report, "item ", &hex::encode(alloc, item)?)
}

/// The line of an accepted run of a stack.
fn replay_line(alloc: Global, stack: &Stack, run: &RunReport) -> Result<String, AllocError>
    requires { the_weight stack.now ≤ 2 ^ 40 }
    ensures { IfOk result (λ line. string_bytes line ≡ the_replay_line stack.now (accepted run.now.ops run.now.peak run.now.checks)) }
{
    let (ops, peak) = (run.ops, run.peak);
    let (items, weight) = (stack.len(), stack.weight());
    format!(in alloc; "replay ops {ops} items {items} weight {weight} peak {peak}\n")
}
