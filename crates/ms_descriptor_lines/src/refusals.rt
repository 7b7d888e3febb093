//! The lines of descriptors that are refused.

ghost use Rattle.std.specs.Prelude.{◌≡◌, ◌++◌, OnOk};
ghost use Rattle.def_descriptor_answer.specs.Lines.{fault_name, fault_line, no_branch_line, not_ranged_line, named_at};

use crate::pieces::{push_named, push_text};
use def_descriptor::DescriptorFault;
use std::alloc::AllocError;

/// Adds a name and a place.
fn push_name_at(report: &mut Vec<u8>, name: &str, at: u32) -> Result<(), AllocError>
    ensures { OnOk result (report.new.items ≡ report.old.items ++ named_at name.now at) }
{
    push_text(report, name)?;
    push_named(report, " at ", at as u64)
}

/// Adds the name of a text's refusal, and its place, where it has one. Want of memory has no name.
fn push_fault_name(report: &mut Vec<u8>, fault: DescriptorFault) -> Result<(), AllocError>
    ensures { OnOk result (report.new.items ≡ report.old.items ++ fault_name fault) }
{
    match fault {
        DescriptorFault::TooLong => push_text(report, "TooLong"),
        DescriptorFault::Syntax(at) => push_name_at(report, "Syntax", at),
        DescriptorFault::TooDeep(at) => push_name_at(report, "TooDeep", at),
        DescriptorFault::Other(at) => push_name_at(report, "Other", at),
        DescriptorFault::Private(at) => push_name_at(report, "Private", at),
        DescriptorFault::Key(at) => push_name_at(report, "Key", at),
        DescriptorFault::Point(at) => push_name_at(report, "Point", at),
        DescriptorFault::Network(at) => push_name_at(report, "Network", at),
        DescriptorFault::Depth(at) => push_name_at(report, "Depth", at),
        DescriptorFault::Hardened(at) => push_name_at(report, "Hardened", at),
        DescriptorFault::Multipath(at) => push_name_at(report, "Multipath", at),
        DescriptorFault::Checksum(at) => push_name_at(report, "Checksum", at),
        DescriptorFault::Memory => Ok(()),
    }
}

/// Adds the line of a text's refusal: its name, and its place, where it has one. `AllocError` comes only where memory is
/// wanting.
pub fn push_fault_line(report: &mut Vec<u8>, fault: DescriptorFault) -> Result<(), AllocError>
    ensures { OnOk result (report.new.items ≡ report.old.items ++ fault_line fault) }
{
    push_text(report, "refused descriptor ")?;
    push_fault_name(report, fault)?;
    push_text(report, "\n")
}

/// Adds the line of a descriptor that has no branch of the number that is asked. `AllocError` comes only where memory is
/// wanting.
pub fn push_no_branch_line(report: &mut Vec<u8>) -> Result<(), AllocError>
    ensures { OnOk result (report.new.items ≡ report.old.items ++ no_branch_line) }
{
    push_text(report, "refused descriptor NoBranch\n")
}

/// Adds the line of a descriptor that goes by no index, where another one than 0 is asked. `AllocError` comes only where
/// memory is wanting.
pub fn push_not_ranged_line(report: &mut Vec<u8>) -> Result<(), AllocError>
    ensures { OnOk result (report.new.items ≡ report.old.items ++ not_ranged_line) }
{
    push_text(report, "refused descriptor NotRanged\n")
}
