//! Pieces of lines: numbers, elements and instructions.
ghost use Rattle.std.specs.Prelude.{◌≡◌, ◌<◌, ◌++◌, ◌∷◌, [], codes, decimal, drop, slice_index, OnOk};
ghost use Rattle.std.specs.String.{string_bytes};
ghost use Rattle.hex.specs.Hex.{encode_lower, lower_digits};
ghost use Rattle.def_trace.specs.Written.{digits, instruction_text, line_end};
ghost use Rattle.ms_script.specs.Reads.{item_of};

use crate::names::op_name;
use itoa::Buffer;
use ms_script::{InstrRef, num_encode};
use std::alloc::AllocError;

/// Adds a number in decimal.
pub fn push_number(report: &mut String, number: usize) -> Result<(), AllocError>
    ensures { OnOk result (string_bytes report.new ≡ string_bytes report.old ++ decimal number) }
{
    let mut buffer = Buffer::new();
    report.push_str(buffer.format(number))
}

/// Adds bytes in lower-case digits, no byte as `-`.
pub fn push_digits(report: &mut String, bytes: &[u8]) -> Result<(), AllocError>
    ensures { OnOk result (string_bytes report.new ≡ string_bytes report.old ++ digits bytes.now) }
{
    if bytes.is_empty() {
        return report.push_str("-");
    }
    push_bytes(report, bytes)
}

/// Adds bytes in lower-case digits.
#[tactic(auto, unfolding(hex::specs::Hex::encode_with))]
fn push_bytes(report: &mut String, bytes: &[u8]) -> Result<(), AllocError>
    ensures { OnOk result (string_bytes report.new ≡ string_bytes report.old ++ encode_lower bytes.now) }
{
    for &byte in bytes {
        push_byte(report, byte)?;
    }
    Ok(())
}

/// Adds the two digits of a byte.
#[tactic(auto, unfolding(hex::specs::Hex::encode_with))]
pub fn push_byte(report: &mut String, byte: u8) -> Result<(), AllocError>
    ensures { OnOk result (string_bytes report.new ≡ string_bytes report.old ++ encode_lower (byte ∷ [])) }
{
    report.push(digit(byte / 16))?;
    report.push(digit(byte % 16))
}

/// The digit of a number below 16.
fn digit(number: u8) -> char
    requires { number < 16 }
    ensures value { result ≡ slice_index lower_digits number }
    ensures ascii { result < 128 }
{
    char::from(b"0123456789abcdef"[number as usize])
}

/// Adds a space and what an instruction is called: a push by the bytes that it pushes, an opcode by its name.
pub fn push_instruction(report: &mut String, instr: InstrRef<'_>) -> Result<(), AllocError>
    ensures { OnOk result (string_bytes report.new ≡ string_bytes report.old ++ (codes " " ++ instruction_text (item_of instr.entry) 0)) }
{
    match instr {
        InstrRef::Push { bytes, .. } => push_push(report, bytes),
        InstrRef::Small(number) => {
            let bytes = num_encode(number);
            push_push(report, bytes.as_slice())
        }
        InstrRef::Code(op) => {
            report.push(' ')?;
            report.push_str(op_name(op))
        }
    }
}

/// Adds a space and what a push is called.
fn push_push(report: &mut String, bytes: &[u8]) -> Result<(), AllocError>
    ensures { OnOk result (string_bytes report.new ≡ string_bytes report.old ++ (codes " push " ++ digits bytes.now)) }
{
    report.push_str(" push ")?;
    push_digits(report, bytes)
}

/// Adds the end of a line: the place of a node, where there is one, and a line feed.
pub fn push_line_end(report: &mut String, places: &[usize], place: usize) -> Result<(), AllocError>
    ensures { OnOk result (string_bytes report.new ≡ string_bytes report.old ++ line_end (drop place places.now)) }
{
    if let Some(node) = places.get(place) {
        report.push_str(" node ")?;
        push_number(report, *node)?;
    }
    report.push('\n')
}
