//! The lines of an output.

ghost use Rattle.std.specs.Prelude.{◌≡◌, ◌++◌, OnOk};
ghost use Rattle.def_descriptor_answer.specs.Lines.{output_line, output_lines};

use crate::pieces::{push_digits_line, push_text_line};
use std::alloc::{AllocError, Global};

/// Adds the line of an output's script, where that isn't its program.
fn push_output_line(
    alloc: Global,
    report: &mut Vec<u8>,
    under: bool,
    output: &[u8],
) -> Result<(), AllocError>
    ensures { OnOk result (report.new.items ≡ report.old.items ++ output_line under output.now) }
{
    if !under {
        return Ok(());
    }
    push_digits_line(alloc, report, "output ", output)
}

/// Adds the lines of an output: its address, its script where that isn't its program, and its program. `AllocError` comes
/// only where memory is wanting.
pub fn push_output_lines(
    alloc: Global,
    report: &mut Vec<u8>,
    address: &[u8],
    under: bool,
    output: &[u8],
    program: &[u8],
) -> Result<(), AllocError>
    ensures { OnOk result (report.new.items ≡ report.old.items ++ output_lines address.now under output.now program.now) }
{
    push_text_line(report, "address ", address)?;
    push_output_line(alloc, report, under, output)?;
    push_digits_line(alloc, report, "program ", program)
}
