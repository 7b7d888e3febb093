//! The lines of sources that are refused, and of an input that isn't final.
ghost use Rattle.std.specs.Prelude.{◌≡◌, ◌++◌, OnOk};
ghost use Rattle.def_psbt_answer.specs.Lines.{refusal_name, refusal_line, line_fault_name, combine_refusal_line, not_final_line};

use crate::lines::names::fault_name;
use crate::lines::pieces::{push_named, push_number_line, push_text};
use def_combine::{CombineRefusal, LineFault};
use def_psbt::Refusal;
use std::alloc::AllocError;

/// Adds the line of a source's refusal: its name, and its place, where it has one. `AllocError` comes only where memory is
/// wanting.
pub fn push_refusal_line(report: &mut Vec<u8>, refusal: Refusal) -> Result<(), AllocError>
    ensures { OnOk result (report.new.items ≡ report.old.items ++ refusal_line refusal) }
{
    push_text(report, "refused psbt ")?;
    push_refusal(report, refusal)?;
    push_text(report, "\n")
}

/// Adds the line of why nothing is combined. `AllocError` comes only where memory is wanting.
pub fn push_combine_refusal_line(
    report: &mut Vec<u8>,
    refusal: CombineRefusal,
) -> Result<(), AllocError>
    ensures { OnOk result (report.new.items ≡ report.old.items ++ combine_refusal_line refusal) }
{
    match refusal {
        CombineRefusal::TooLong => push_text(report, "refused psbt TooLong\n"),
        CombineRefusal::NoPsbt => push_text(report, "refused psbt NoPsbt\n"),
        CombineRefusal::Line(number, fault) => push_refused_line(report, number, fault),
        CombineRefusal::OtherTransaction => push_text(report, "refused psbt OtherTransaction\n"),
    }
}

/// Adds the line of why the PSBT of the line with this number is refused.
fn push_refused_line(
    report: &mut Vec<u8>,
    number: usize,
    fault: LineFault,
) -> Result<(), AllocError>
    ensures { OnOk result (report.new.items ≡ report.old.items ++ combine_refusal_line (CombineRefusal.Line number fault)) }
{
    push_named(report, "refused line ", number as u64)?;
    push_text(report, " ")?;
    push_line_fault(report, fault)?;
    push_text(report, "\n")
}

/// Adds why the PSBT of a line is refused.
fn push_line_fault(report: &mut Vec<u8>, fault: LineFault) -> Result<(), AllocError>
    ensures { OnOk result (report.new.items ≡ report.old.items ++ line_fault_name fault) }
{
    match fault {
        LineFault::Psbt(refusal) => push_refusal(report, refusal),
        LineFault::OtherVersion => push_text(report, "OtherVersion"),
        LineFault::OtherTransaction => push_text(report, "OtherTransaction"),
    }
}

/// Adds the name of a refusal, and its place, where it has one.
fn push_refusal(report: &mut Vec<u8>, refusal: Refusal) -> Result<(), AllocError>
    ensures { OnOk result (report.new.items ≡ report.old.items ++ refusal_name refusal) }
{
    match refusal {
        Refusal::TooLong => push_text(report, "TooLong"),
        Refusal::NotBase64 => push_text(report, "NotBase64"),
        Refusal::Magic => push_text(report, "Magic"),
        Refusal::At(fault, at) => {
            push_text(report, fault_name(fault))?;
            push_named(report, " at ", at as u64)
        }
    }
}

/// Adds the line of the first input that isn't final, by its number from 0. `AllocError` comes only where memory is wanting.
pub fn push_not_final_line(report: &mut Vec<u8>, number: usize) -> Result<(), AllocError>
    ensures { OnOk result (report.new.items ≡ report.old.items ++ not_final_line number) }
{
    push_number_line(report, "not final ", number as u64)
}
