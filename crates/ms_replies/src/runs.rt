//! What is answered to a run file.
ghost use Rattle.std.specs.Prelude.{◌≤◌, length};
ghost use Rattle.def_files.specs.RunFile.{MOST_ELEMENTS};
ghost use Rattle.def_answer.specs.Reply.{outcome_reply, run_reply};
ghost use Rattle.def_answer.specs.Lines.{MOST_FILE};
ghost use Rattle.ms_replies.specs.Runs.{file_seen, outcome_of};
ghost use Rattle.ms_replies.specs.Answering.{RepliesWith};

use crate::files::file_answer;
use def_answer::Status;
use ms_assets::{RunFile, read_run};
use ms_interp::{RunStop, run};
use ms_oracle::{PairIndex, SigCheck};
use ms_report::{Answer, accepted_report, refused_report};
use std::alloc::{AllocError, Global};

/// The answer to a run file of these bytes, as `run` gives it: the file's refusal, or what its run came to. It
/// demands that the file isn't too long. `AllocError` comes only where memory is wanting.
pub fn run_answer(alloc: Global, bytes: &[u8]) -> Result<Answer, AllocError>
    requires { length bytes.now ≤ MOST_FILE }
    ensures { RepliesWith result (run_reply bytes.now) }
{
    match read_run(alloc, bytes) {
        Ok(file) => outcome_answer(alloc, &file),
        Err(fault) => file_answer(alloc, fault),
    }
}

/// The answer to a run file that was read: what its run came to.
fn outcome_answer(alloc: Global, file: &RunFile) -> Result<Answer, AllocError>
    requires { length file.now.stack ≤ MOST_ELEMENTS }
    ensures { RepliesWith result (outcome_reply (outcome_of (file_seen file.now))) }
{
    let pairs = file.pairs.as_slice();
    let index = PairIndex::new(alloc, pairs)?;
    let sigs = SigCheck::new(pairs, |key: &[u8], sig: &[u8]| index.holds(key, sig));
    match run(
        alloc,
        file.script.as_slice(),
        &file.stack,
        &file.locks,
        &sigs,
    ) {
        Ok(report) => Ok(Answer {
            status: Status::Done,
            report: accepted_report(alloc, &report)?,
        }),
        Err(RunStop::Refused(fault, place)) => Ok(Answer {
            status: Status::ScriptRefused,
            report: refused_report(alloc, fault, place)?,
        }),
        Err(RunStop::Memory) => Err(AllocError),
    }
}
