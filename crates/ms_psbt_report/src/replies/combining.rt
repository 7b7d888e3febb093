//! `combine`: the PSBT that holds what several of one transaction hold.
ghost use Rattle.std.specs.Prelude.{◌≡◌, IfOk};
ghost use Rattle.def_combine.specs.Combine.{combined_of};
ghost use Rattle.def_psbt_answer.specs.Reply.{reply, combine_reply};

use crate::replies::reply::{Reply, not_combined};
use def_psbt_answer::{Form, Status};
use ms_combine::CombineStop;
use ms_psbt_write::in_form;
use std::alloc::{AllocError, Global};

/// The PSBT that the lines of a source give together, as base64, or why nothing is combined.
pub fn combine(alloc: Global, source: &[u8]) -> Result<Reply, AllocError>
    ensures { IfOk result (λ made. reply made.status made.report.items ≡ combine_reply (combined_of source.now)) }
{
    match ms_combine::combine(alloc, source) {
        Ok(whole) => Ok(Reply {
            status: Status::Done,
            report: in_form(alloc, Form::Base64, whole)?,
        }),
        Err(CombineStop::Refused(refusal)) => not_combined(alloc, refusal),
        Err(CombineStop::Memory) => Err(AllocError),
    }
}
