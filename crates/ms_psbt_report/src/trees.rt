//! What `inspect` prints of an input's miniscript: as far as its state goes, and what is lacking.
ghost use Rattle.std.specs.Prelude.{◌≡◌, ◌++◌, Some, flat_map, IsTrue, OnOk};
ghost use Rattle.def_script.specs.Witness.{weight};
ghost use Rattle.def_tree.specs.InRange.{IsInRange};
ghost use Rattle.def_tree.specs.Tree.{Tree as TheTree};
ghost use Rattle.def_sane.specs.Unfit.{IsSane};
ghost use Rattle.def_spend.specs.States.{state_of, stack_of, is_sane as the_is_sane};
ghost use Rattle.def_answer.specs.Plan.{ask_line, weight_line as most_weight_line};
ghost use Rattle.def_psbt_answer.specs.Lines.{weight_line};
ghost use Rattle.ms_input.specs.Seen.{input_seen};
ghost use Rattle.ms_psbt_report.specs.Scaffolding.Lines.{lines_of_tree, told_tree, last_lines_of, lines_of_plan};
ghost use Rattle.ms_tree.specs.Shape.{shape};

use crate::lines::{
    push_ask_line, push_most_weight_line, push_no_plan_line, push_policy_line, push_tree_line,
    push_weight_line,
};
use crate::states::{is_read, is_sane};
use ms_input::{Input, State};
use ms_tree::{Key, Tree};
use std::alloc::{AllocError, Global};

/// Adds what is told of an input's miniscript, where it has one.
pub fn push_tree_lines(
    alloc: Global,
    report: &mut Vec<u8>,
    input: &Input<'_, '_>,
) -> Result<(), AllocError>
    ensures { OnOk result (report.new.items ≡ report.old.items ++ lines_of_tree (input_seen input.now) input.now.spend) }
{
    let Some(tree) = input.tree() else {
        return Ok(());
    };
    push_told_tree(alloc, report, input.state(), tree)?;
    push_last_lines(alloc, report, input)
}

/// Adds the lines of a miniscript's printed form and of its policy, as far as the state goes.
fn push_told_tree(
    alloc: Global,
    report: &mut Vec<u8>,
    state: State,
    tree: &Tree<'_>,
) -> Result<(), AllocError>
    requires range { IsInRange (shape tree.now) }
    requires sane { IsTrue (the_is_sane state) → IsSane (shape tree.now) }
    ensures { OnOk result (report.new.items ≡ report.old.items ++ told_tree state (shape tree.now)) }
{
    if is_read(state) {
        push_tree_line(alloc, report, tree)?;
    }
    if is_sane(state) {
        push_policy_line(alloc, report, tree)?;
    }
    Ok(())
}

/// Adds what is lacking, or what the satisfaction weighs.
#[tactic(auto, using(crate::proofs::LastLines::no_last_lines))]
fn push_last_lines(
    alloc: Global,
    report: &mut Vec<u8>,
    input: &Input<'_, '_>,
) -> Result<(), AllocError>
    ensures { (tree : TheTree) → (input_seen input.now).tree ≡ Some tree → OnOk result (report.new.items ≡ report.old.items ++ last_lines_of (input_seen input.now) input.now.spend tree) }
{
    match input.state() {
        State::Ready => push_weight(report, input),
        State::Unsatisfied => push_plan(alloc, report, input),
        _ => Ok(()),
    }
}

/// Adds what the satisfaction of a Ready input weighs.
fn push_weight(report: &mut Vec<u8>, input: &Input<'_, '_>) -> Result<(), AllocError>
    requires { state_of (input_seen input.now) ≡ State.Ready }
    ensures { OnOk result (report.new.items ≡ report.old.items ++ weight_line (weight (stack_of (input_seen input.now)))) }
{
    match input.stack() {
        Some(stack) => push_weight_line(report, stack.weight()),
        None => Ok(()),
    }
}

/// Adds the plan of an input that is Unsatisfied, or that it has none.
fn push_plan(alloc: Global, report: &mut Vec<u8>, input: &Input<'_, '_>) -> Result<(), AllocError>
    requires { state_of (input_seen input.now) ≡ State.Unsatisfied }
    ensures { (tree : TheTree) → (input_seen input.now).tree ≡ Some tree → OnOk result (report.new.items ≡ report.old.items ++ lines_of_plan input.now.spend tree) }
{
    match input.plan(alloc)? {
        Some(plan) => push_asked(report, plan.keys.as_slice(), plan.weight),
        None => push_no_plan_line(report),
    }
}

/// Adds the lines of the keys to ask, and that of the weight.
fn push_asked(report: &mut Vec<u8>, keys: &[Key], weight: u64) -> Result<(), AllocError>
    ensures { OnOk result (report.new.items ≡ report.old.items ++ (flat_map ask_line keys.now ++ most_weight_line weight)) }
{
    push_keys(report, keys)?;
    push_most_weight_line(report, weight)
}

/// Adds a line for each key.
fn push_keys(report: &mut Vec<u8>, keys: &[Key]) -> Result<(), AllocError>
    ensures { OnOk result (report.new.items ≡ report.old.items ++ flat_map ask_line keys.now) }
{
    for key in keys {
        push_ask_line(report, key)?;
    }
    Ok(())
}
