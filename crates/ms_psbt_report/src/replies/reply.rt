//! Replies: each has a status and a report, which is made whole before anything is written.
ghost use Rattle.std.specs.Prelude.{◌≡◌, Err, IfOk};
ghost use Rattle.def_psbt_answer.specs.Lines.{not_final_line};
ghost use Rattle.def_psbt_answer.specs.Reply.{reply, refusal_reply, combine_reply};

use crate::lines::{push_combine_refusal_line, push_not_final_line, push_refusal_line};
use def_combine::CombineRefusal;
use def_psbt::Refusal;
use def_psbt_answer::Status;
use std::alloc::{AllocError, Global};

/// A status, and the whole report that goes with it.
#[derive(Debug, Drop)]
pub struct Reply {
    /// The status that the program ends with.
    pub status: Status,
    /// All that it writes.
    pub report: Vec<u8>,
}

/// The reply to a source that gives no PSBT.
pub fn refused(alloc: Global, refusal: Refusal) -> Result<Reply, AllocError>
    ensures { IfOk result (λ made. reply made.status made.report.items ≡ refusal_reply refusal) }
{
    let mut report = Vec::new(alloc);
    push_refusal_line(&mut report, refusal)?;
    Ok(Reply {
        status: Status::Refused,
        report,
    })
}

/// The reply to a source of which nothing is combined.
pub fn not_combined(alloc: Global, refusal: CombineRefusal) -> Result<Reply, AllocError>
    ensures { IfOk result (λ made. reply made.status made.report.items ≡ combine_reply (Err refusal)) }
{
    let mut report = Vec::new(alloc);
    push_combine_refusal_line(&mut report, refusal)?;
    Ok(Reply {
        status: Status::Refused,
        report,
    })
}

/// The reply that the input with this number isn't final.
pub fn not_final(alloc: Global, number: usize) -> Result<Reply, AllocError>
    ensures { IfOk result (λ made. reply made.status made.report.items ≡ reply Status.Open (not_final_line number)) }
{
    let mut report = Vec::new(alloc);
    push_not_final_line(&mut report, number)?;
    Ok(Reply {
        status: Status::Open,
        report,
    })
}
