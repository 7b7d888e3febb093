//! Lines that several reports share.
ghost use Rattle.std.specs.Prelude.{◌≡◌, ◌++◌, OnOk};
ghost use Rattle.std.specs.String.{string_bytes};
ghost use Rattle.def_machine.specs.Program.{program_of};
ghost use Rattle.def_answer.specs.Lines.{line, script_line, program_line};

use std::alloc::{AllocError, Global};

/// Adds a line: a name, what it names, and a line feed. `AllocError` comes only where memory is wanting.
pub fn push_line(report: &mut String, name: &str, value: &str) -> Result<(), AllocError>
    ensures { OnOk result (string_bytes report.new ≡ string_bytes report.old ++ line (name.now ++ value.now)) }
{
    report.push_str(name)?;
    report.push_str(value)?;
    report.push('\n')
}

/// Adds the lines of a Script and of the program of its P2WSH output (BIP 141), both in lower-case digits.
/// `AllocError` comes only where memory is wanting.
pub fn push_output(
    alloc: Global,
    report: &mut String,
    script: &[u8],
    program: &[u8; 34],
) -> Result<(), AllocError>
    requires { program.now ≡ program_of script.now }
    ensures { OnOk result (string_bytes report.new ≡ string_bytes report.old ++ script_line script.now ++ program_line script.now) }
{
    push_line(report, "script ", &hex::encode(alloc, script)?)?;
    push_line(report, "program ", &hex::encode(alloc, program)?)
}
