//! Numbers in decimal digits.
ghost use Rattle.std.specs.Prelude.{◌≡◌, ◌++◌, decimal, OnOk};
ghost use Rattle.std.specs.String.{string_bytes};

use itoa::Buffer;
use std::alloc::AllocError;

/// Adds a number in decimal digits. `AllocError` comes only where memory is wanting.
pub fn push_number(report: &mut String, number: u64) -> Result<(), AllocError>
    ensures { OnOk result (string_bytes report.new ≡ string_bytes report.old ++ decimal number) }
{
    let mut buffer = Buffer::new();
    report.push_str(buffer.format(number))
}
