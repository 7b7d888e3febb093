//! What is printed of a plan.
ghost use Rattle.std.specs.Prelude.{◌≡◌, ◌++◌, flat_map, decimal, IfOk, OnOk};
ghost use Rattle.std.specs.String.{string_bytes};
ghost use Rattle.def_answer.specs.Plan.{ask_line, plan_report as the_plan_report};

use crate::lines::push_line;
use ms_tree::Key;
use std::alloc::{AllocError, Global};

/// A line for each key to ask for a signature, and the greatest weight: what `plan` prints. `AllocError` comes only
/// where memory is wanting.
pub fn plan_report(alloc: Global, keys: &[Key], weight: u64) -> Result<String, AllocError>
    ensures { IfOk result (λ report. string_bytes report ≡ the_plan_report (record { keys = keys.now; weight = weight })) }
{
    let mut report = String::new(alloc);
    push_keys(alloc, &mut report, keys)?;
    push_line(
        &mut report,
        "weight at most ",
        &decimal_text(alloc, weight)?,
    )?;
    Ok(report)
}

/// A number in decimal.
fn decimal_text(alloc: Global, number: u64) -> Result<String, AllocError>
    ensures { IfOk result (λ text. string_bytes text ≡ decimal number) }
{
    format!(in alloc; "{number}")
}

/// Adds a line for each key.
fn push_keys(alloc: Global, report: &mut String, keys: &[Key]) -> Result<(), AllocError>
    ensures { OnOk result (string_bytes report.new ≡ string_bytes report.old ++ flat_map ask_line keys.now) }
{
    for key in keys {
        push_key(alloc, report, key)?;
    }
    Ok(())
}

/// Adds the line of a key to ask.
fn push_key(alloc: Global, report: &mut String, key: &Key) -> Result<(), AllocError>
    ensures { OnOk result (string_bytes report.new ≡ string_bytes report.old ++ ask_line key.now) }
{
    push_line(report, "ask ", &hex::encode(alloc, key.as_bytes())?)
}
