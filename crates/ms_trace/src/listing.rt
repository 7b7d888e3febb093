//! The instructions of a Script, listed.
ghost use Rattle.std.specs.Prelude.{◌≡◌, ◌++◌, drop, OnOk};
ghost use Rattle.std.specs.String.{string_bytes};
ghost use Rattle.def_trace.specs.Listing.{listed, listing};
ghost use Rattle.def_trace.specs.Placed.{placed};
ghost use Rattle.ms_script.specs.Reads.{item_of};
ghost use Rattle.ms_trace.specs.Scaffolding.Brief.{listed_unread};

use crate::pieces::{push_byte, push_instruction, push_line_end, push_number};
use ms_script::{InstrRef, next_instr};
use std::alloc::AllocError;

/// Adds a line for each instruction of a Script, in order: the offset of its first byte and what it is called, and, where
/// places are given, the place that stands at its number. `AllocError` comes only where memory is wanting; nothing is said
/// then of what the report holds.
pub fn list_instructions(
    report: &mut String,
    script: &[u8],
    places: &[usize],
) -> Result<(), AllocError>
    ensures { OnOk result (string_bytes report.new ≡ string_bytes report.old ++ listing places.now (placed script.now)) }
{
    let mut offset = 0;
    let mut count = 0;
    'instructions: loop {
        match next_instr(script, offset) {
            Ok(None) => return Ok(()),
            Err(_) => return push_unread(report, offset, script[offset], places, count),
            Ok(Some((instr, next))) => {
                push_listed(report, offset, instr, places, count)?;
                offset = next;
                count += 1;
            }
        }
    }
}

/// Adds the line of an instruction.
fn push_listed(
    report: &mut String,
    offset: usize,
    instr: InstrRef<'_>,
    places: &[usize],
    count: usize,
) -> Result<(), AllocError>
    ensures { OnOk result (string_bytes report.new ≡ string_bytes report.old ++ listed (drop count places.now) (record { offset = offset; first = 0; item = item_of instr.entry })) }
{
    report.push_str("at ")?;
    push_number(report, offset)?;
    push_instruction(report, instr)?;
    push_line_end(report, places, count)
}

/// Adds the line of an instruction that can't be read, which begins with this byte.
fn push_unread(
    report: &mut String,
    offset: usize,
    first: u8,
    places: &[usize],
    count: usize,
) -> Result<(), AllocError>
    ensures { OnOk result (string_bytes report.new ≡ string_bytes report.old ++ listed_unread (drop count places.now) offset first) }
{
    report.push_str("at ")?;
    push_number(report, offset)?;
    report.push_str(" byte ")?;
    push_byte(report, first)?;
    push_line_end(report, places, count)
}
