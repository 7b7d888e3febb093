//! What is printed of an audit.
ghost use Rattle.std.specs.Prelude.{◌≡◌, ◌<◌, ◌++◌, All, flat_map, IfOk, OnOk};
ghost use Rattle.std.specs.List.{list_any};
ghost use Rattle.std.specs.String.{string_bytes};
ghost use Rattle.def_tree.specs.Size.{nodes};
ghost use Rattle.def_audit.specs.declared.Step.{Step as TheStep};
ghost use Rattle.def_answer.specs.Audit.{audit_report as the_audit_report, step_line as the_step_line, canonical_line as the_canonical_line};
ghost use Rattle.ms_tree.specs.Shape.{shape};

use def_audit::Step;
use ms_text::TextTree;
use std::alloc::{AllocError, Global};

/// The opcodes and the peak of an accepted run, a line for each step, and whether all rows are canonical: what
/// `audit` prints. It demands that the nodes of the steps are those of the text. `AllocError` comes only where memory
/// is wanting.
#[tactic(auto, unfolding(def_answer::specs::Audit::audit_report))]
pub fn audit_report(
    alloc: Global,
    text: &TextTree<'_>,
    steps: &[Step],
    ops: u32,
    peak: u32,
) -> Result<String, AllocError>
    requires { All (λ (step : TheStep). step.node < nodes (shape text.now.tree)) steps.now }
    ensures { IfOk result (λ report. string_bytes report ≡ the_audit_report text.now.offsets.items steps.now ops peak) }
{
    let mut report = format!(in alloc; "accepted ops {ops} peak {peak}\n")?;
    push_steps(alloc, &mut report, text, steps)?;
    report.push_str(canonical_line(steps))?;
    Ok(report)
}

/// Adds a line for each step.
fn push_steps(
    alloc: Global,
    report: &mut String,
    text: &TextTree<'_>,
    steps: &[Step],
) -> Result<(), AllocError>
    requires { All (λ (step : TheStep). step.node < nodes (shape text.now.tree)) steps.now }
    ensures { OnOk result (string_bytes report.new ≡ string_bytes report.old ++ flat_map (the_step_line text.now.offsets.items) steps.now) }
{
    for step in steps {
        push_step(alloc, report, text, step)?;
    }
    Ok(())
}

/// Adds the line of a step: the node's place, whether it is satisfied, and whether by a row that isn't canonical.
fn push_step(
    alloc: Global,
    report: &mut String,
    text: &TextTree<'_>,
    step: &Step,
) -> Result<(), AllocError>
    requires { step.now.node < nodes (shape text.now.tree) }
    ensures { OnOk result (string_bytes report.new ≡ string_bytes report.old ++ the_step_line text.now.offsets.items step.now) }
{
    let place = text.offset(step.node);
    let node = format!(in alloc; "node {place}")?;
    report.push_str(&node)?;
    report.push_str(if step.sat { " sat" } else { " dsat" })?;
    report.push_str(if step.extra { " extra\n" } else { "\n" })
}

/// Whether all steps are by canonical rows, as a line.
fn canonical_line(steps: &[Step]) -> &'static str
    ensures { result.now ≡ the_canonical_line steps.now }
{
    if have_extra(steps) {
        "canonical no\n"
    } else {
        "canonical yes\n"
    }
}

/// Whether a step is by a row that isn't canonical.
pub fn have_extra(steps: &[Step]) -> bool
    ensures { result ≡ list_any (λ (step : TheStep). step.extra) steps.now }
{
    steps.iter().any(|step| step.extra)
}
