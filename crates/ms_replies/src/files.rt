//! What is answered to an asset file or a run file that is refused.
ghost use Rattle.std.specs.Prelude.{◌≢◌, IfOk};
ghost use Rattle.def_answer.specs.Files.{file_line as the_file_line};
ghost use Rattle.def_answer.specs.Reply.{reply};
ghost use Rattle.ms_replies.specs.Answering.{RepliesWith};

use def_answer::Status;
use ms_assets::AssetFault;
use ms_report::{Answer, file_line};
use std::alloc::{AllocError, Global};

/// The refusal of a file, unless memory was wanting.
pub fn file_answer(alloc: Global, fault: AssetFault) -> Result<Answer, AllocError>
    ensures answer { RepliesWith result (reply Status.FileRefused (the_file_line fault)) }
    ensures known { IfOk result (λ answer. fault ≢ AssetFault.Memory) }
{
    Ok(Answer {
        status: Status::FileRefused,
        report: file_line(alloc, fault)?,
    })
}
