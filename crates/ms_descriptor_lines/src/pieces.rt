//! Pieces of lines: texts, numbers and digits.

ghost use Rattle.std.specs.Prelude.{◌≡◌, ◌++◌, decimal, OnOk};
ghost use Rattle.hex.specs.Hex.{encode_lower};
ghost use Rattle.def_answer.specs.Lines.{line};

use itoa::Buffer;
use std::alloc::{AllocError, Global};

/// Adds a text. `AllocError` comes only where memory is wanting.
pub fn push_text(report: &mut Vec<u8>, text: &str) -> Result<(), AllocError>
    ensures { OnOk result (report.new.items ≡ report.old.items ++ text.now) }
{
    report.extend_from_slice(text.as_bytes())
}

/// Adds a number in decimal. `AllocError` comes only where memory is wanting.
pub fn push_number(report: &mut Vec<u8>, number: u64) -> Result<(), AllocError>
    ensures { OnOk result (report.new.items ≡ report.old.items ++ decimal number) }
{
    let mut buffer = Buffer::new();
    push_text(report, buffer.format(number))
}

/// Adds a name and a number. `AllocError` comes only where memory is wanting.
pub fn push_named(report: &mut Vec<u8>, name: &str, number: u64) -> Result<(), AllocError>
    ensures { OnOk result (report.new.items ≡ report.old.items ++ (name.now ++ decimal number)) }
{
    push_text(report, name)?;
    push_number(report, number)
}

/// Adds bytes as lower-case digits.
pub fn push_digits(alloc: Global, report: &mut Vec<u8>, bytes: &[u8]) -> Result<(), AllocError>
    ensures { OnOk result (report.new.items ≡ report.old.items ++ encode_lower bytes.now) }
{
    let digits = hex::encode(alloc, bytes)?;
    push_text(report, &digits)
}

/// Adds a line of a name and a number. `AllocError` comes only where memory is wanting.
pub fn push_number_line(report: &mut Vec<u8>, name: &str, number: u64) -> Result<(), AllocError>
    ensures { OnOk result (report.new.items ≡ report.old.items ++ line (name.now ++ decimal number)) }
{
    push_named(report, name, number)?;
    push_text(report, "\n")
}

/// Adds a line of a name and a text. `AllocError` comes only where memory is wanting.
pub fn push_text_line(report: &mut Vec<u8>, name: &str, text: &[u8]) -> Result<(), AllocError>
    ensures { OnOk result (report.new.items ≡ report.old.items ++ line (name.now ++ text.now)) }
{
    push_text(report, name)?;
    report.extend_from_slice(text)?;
    push_text(report, "\n")
}

/// Adds a line of a name and bytes as lower-case digits. `AllocError` comes only where memory is wanting.
pub fn push_digits_line(
    alloc: Global,
    report: &mut Vec<u8>,
    name: &str,
    bytes: &[u8],
) -> Result<(), AllocError>
    ensures { OnOk result (report.new.items ≡ report.old.items ++ line (name.now ++ encode_lower bytes.now)) }
{
    push_text(report, name)?;
    push_digits(alloc, report, bytes)?;
    push_text(report, "\n")
}
