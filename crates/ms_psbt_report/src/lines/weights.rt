//! The lines of weights.
ghost use Rattle.std.specs.Prelude.{◌≡◌, ◌++◌, OnOk};
ghost use Rattle.def_answer.specs.Plan.{weight_line as most_weight_line};
ghost use Rattle.def_psbt_answer.specs.Lines.{weight_line};

use crate::lines::pieces::push_number_line;
use std::alloc::AllocError;

/// Adds the line of what a satisfaction weighs. `AllocError` comes only where memory is wanting.
pub fn push_weight_line(report: &mut Vec<u8>, weight: u64) -> Result<(), AllocError>
    ensures { OnOk result (report.new.items ≡ report.old.items ++ weight_line weight) }
{
    push_number_line(report, "weight ", weight)
}

/// Adds the line of what a satisfaction by a plan weighs at most. `AllocError` comes only where memory is wanting.
pub fn push_most_weight_line(report: &mut Vec<u8>, weight: u64) -> Result<(), AllocError>
    ensures { OnOk result (report.new.items ≡ report.old.items ++ most_weight_line weight) }
{
    push_number_line(report, "weight at most ", weight)
}
