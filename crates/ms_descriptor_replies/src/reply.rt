//! Replies: each has a status and a report, which is made whole before anything is written.

ghost use Rattle.std.specs.Prelude.{◌≡◌, ◌≢◌, IfOk};
ghost use Rattle.def_descriptor_answer.specs.Reply.{reply};
ghost use Rattle.def_descriptor_answer.specs.Lines.{fault_line};

use def_descriptor::DescriptorFault;
use def_descriptor_answer::Status;
use ms_descriptor_lines::push_fault_line;
use std::alloc::{AllocError, Global};

/// A status, and the whole report that goes with it.
#[derive(Debug, Drop)]
pub struct Reply {
    /// The status that the program ends with.
    pub status: Status,
    /// All that it writes.
    pub report: Vec<u8>,
}

/// The reply to a text that is refused. Want of memory has none.
pub fn refused(alloc: Global, why: DescriptorFault) -> Result<Reply, AllocError>
    ensures { IfOk result (λ made. (why ≢ DescriptorFault.Memory) × (reply made.status made.report.items ≡ reply Status.Refused (fault_line why))) }
{
    if let DescriptorFault::Memory = why {
        return Err(AllocError);
    }
    let mut report = Vec::new(alloc);
    push_fault_line(&mut report, why)?;
    Ok(Reply {
        status: Status::Refused,
        report,
    })
}
