//! What is answered to a run file by the trace of its run.
ghost use Rattle.std.specs.Prelude.{◌≤◌, length, IfOk};
ghost use Rattle.std.specs.String.{string_bytes};
ghost use Rattle.def_tree.specs.InRange.{IsInRange};
ghost use Rattle.def_files.specs.RunFile.{MOST_ELEMENTS};
ghost use Rattle.def_answer.specs.Lines.{MOST_FILE};
ghost use Rattle.def_answer.specs.Reply.{traced_reply, trace_reply, text_traced_reply, text_trace_reply};
ghost use Rattle.ms_tree.specs.Shape.{shape};
ghost use Rattle.ms_replies.specs.Answering.{RepliesWith};
ghost use Rattle.ms_replies.specs.Runs.{file_seen, TellsLast};

use crate::audits::not_accepted;
use crate::files::file_answer;
use def_answer::Status;
use ms_assets::{RunFile, read_run};
use ms_emit::script_bytes;
use ms_interp::{RunReport, RunStop};
use ms_oracle::{PairIndex, SigCheck};
use ms_report::{Answer, accepted_line, refused_report};
use ms_text::TextTree;
use ms_trace::trace;
use ms_writers::places;
use std::alloc::{AllocError, Global};

/// The answer to a run file of these bytes, as `trace` gives it: the file's refusal, or the trace of its run. It
/// demands that the file isn't too long. `AllocError` comes only where memory is wanting.
pub fn trace_answer(alloc: Global, bytes: &[u8]) -> Result<Answer, AllocError>
    requires { length bytes.now ≤ MOST_FILE }
    ensures { RepliesWith result (trace_reply bytes.now) }
{
    match read_run(alloc, bytes) {
        Ok(file) => traced_answer(alloc, &[], &file),
        Err(fault) => file_answer(alloc, fault),
    }
}

/// The answer to a run file of these bytes for a text, as `trace TEXT` gives it: the file's refusal, or that its script
/// isn't the text's, or the trace of its run with the node that wrote each instruction. It demands that the file isn't too
/// long. `AllocError` comes only where memory is wanting.
pub fn text_trace_answer(
    alloc: Global,
    text: &TextTree<'_>,
    bytes: &[u8],
) -> Result<Answer, AllocError>
    requires in_range { IsInRange (shape text.now.tree) }
    requires short { length bytes.now ≤ MOST_FILE }
    ensures { RepliesWith result (text_trace_reply text.now.offsets.items bytes.now (shape text.now.tree)) }
{
    match read_run(alloc, bytes) {
        Ok(file) => text_traced_answer(alloc, text, &file),
        Err(fault) => file_answer(alloc, fault),
    }
}

/// The answer to a run file that was read: that its script isn't the text's, or the trace of its run.
fn text_traced_answer(
    alloc: Global,
    text: &TextTree<'_>,
    file: &RunFile,
) -> Result<Answer, AllocError>
    requires in_range { IsInRange (shape text.now.tree) }
    requires few { length file.now.stack ≤ MOST_ELEMENTS }
    ensures { RepliesWith result (text_traced_reply text.now.offsets.items (shape text.now.tree) (file_seen file.now)) }
{
    let script = script_bytes(alloc, text.tree())?;
    if file.script.as_slice() != script.as_slice() {
        let line = String::from_str(alloc, "not accepted WrongScript\n")?;
        return Ok(not_accepted(line));
    }
    let places = places(alloc, text.tree(), text.offsets.as_slice())?;
    traced_answer(alloc, places.as_slice(), file)
}

/// The trace of the run of a file, with these places, and what the run came to.
fn traced_answer(alloc: Global, places: &[usize], file: &RunFile) -> Result<Answer, AllocError>
    requires { length file.now.stack ≤ MOST_ELEMENTS }
    ensures { RepliesWith result (traced_reply places.now (file_seen file.now)) }
{
    let pairs = file.pairs.as_slice();
    let index = PairIndex::new(alloc, pairs)?;
    let sigs = SigCheck::new(pairs, |key: &[u8], sig: &[u8]| index.holds(key, sig));
    let mut report = String::new(alloc);
    let outcome = trace(
        alloc,
        &mut report,
        file.script.as_slice(),
        &file.stack,
        &file.locks,
        &sigs,
        places,
    );
    let status = push_last(alloc, &mut report, &outcome)?;
    Ok(Answer { status, report })
}

/// Adds what a run came to, and gives its status.
#[tactic(auto, unfolding(def_answer::specs::Run::run_report))]
fn push_last(
    alloc: Global,
    report: &mut String,
    outcome: &Result<RunReport, RunStop>,
) -> Result<Status, AllocError>
    ensures { IfOk result (TellsLast outcome.now (string_bytes report.old) (string_bytes report.new)) }
{
    match outcome {
        Ok(ran) => {
            report.push_str(&accepted_line(alloc, ran.ops, ran.peak)?)?;
            Ok(Status::Done)
        }
        Err(RunStop::Refused(fault, place)) => {
            report.push_str(&refused_report(alloc, *fault, *place)?)?;
            Ok(Status::ScriptRefused)
        }
        Err(RunStop::Memory) => Err(AllocError),
    }
}
