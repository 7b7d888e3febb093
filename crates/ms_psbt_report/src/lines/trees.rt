//! The lines of an input's miniscript, and of the keys to ask.
ghost use Rattle.std.specs.Prelude.{◌≡◌, ◌++◌, OnOk};
ghost use Rattle.def_tree.specs.InRange.{IsInRange};
ghost use Rattle.def_policy.specs.Print.{printed as printed_policy};
ghost use Rattle.def_sane.specs.Unfit.{IsSane};
ghost use Rattle.def_answer.specs.Decode.{decode_report as the_decode_report};
ghost use Rattle.def_answer.specs.Policy.{policy_of as the_policy_of};
ghost use Rattle.def_answer.specs.Plan.{ask_line};
ghost use Rattle.def_psbt_answer.specs.Lines.{policy_line, no_plan_line};
ghost use Rattle.ms_tree.specs.Shape.{shape};

use crate::lines::pieces::{push_digits, push_text};
use ms_policy::{policy_of, print_policy};
use ms_report::decode_report;
use ms_tree::{Key, Tree};
use std::alloc::{AllocError, Global};

/// Adds the line of a tree's printed form. `AllocError` comes only where memory is wanting.
pub fn push_tree_line(
    alloc: Global,
    report: &mut Vec<u8>,
    tree: &Tree<'_>,
) -> Result<(), AllocError>
    requires { IsInRange (shape tree.now) }
    ensures { OnOk result (report.new.items ≡ report.old.items ++ the_decode_report (shape tree.now)) }
{
    let text = decode_report(alloc, tree)?;
    push_text(report, &text)
}

/// Adds the line of a sane tree's abstract policy. `AllocError` comes only where memory is wanting.
pub fn push_policy_line(
    alloc: Global,
    report: &mut Vec<u8>,
    tree: &Tree<'_>,
) -> Result<(), AllocError>
    requires range { IsInRange (shape tree.now) }
    requires sane { IsSane (shape tree.now) }
    ensures { OnOk result (report.new.items ≡ report.old.items ++ policy_line (printed_policy (the_policy_of (shape tree.now)))) }
{
    let policy = policy_of(alloc, tree)?;
    let text = print_policy(alloc, &policy)?;
    push_text(report, "policy ")?;
    push_text(report, &text)?;
    push_text(report, "\n")
}

/// Adds the line of a key to ask for a signature. `AllocError` comes only where memory is wanting.
pub fn push_ask_line(report: &mut Vec<u8>, key: &Key) -> Result<(), AllocError>
    ensures { OnOk result (report.new.items ≡ report.old.items ++ ask_line key.now) }
{
    push_text(report, "ask ")?;
    push_digits(report, key.as_bytes())?;
    push_text(report, "\n")
}

/// Adds the line that says that no signatures would be enough. `AllocError` comes only where memory is wanting.
pub fn push_no_plan_line(report: &mut Vec<u8>) -> Result<(), AllocError>
    ensures { OnOk result (report.new.items ≡ report.old.items ++ no_plan_line) }
{
    push_text(report, "no plan\n")
}
