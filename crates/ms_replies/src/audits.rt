//! What is answered to a run file for a text: whether its stack is accepted, and by which rows it satisfies the text.
ghost use Rattle.std.specs.Prelude.{◌≡◌, ◌≤◌, length};
ghost use Rattle.std.specs.String.{string_bytes};
ghost use Rattle.def_tree.specs.InRange.{IsInRange};
ghost use Rattle.def_files.specs.RunFile.{MOST_ELEMENTS};
ghost use Rattle.def_sane.specs.Unfit.{IsValid};
ghost use Rattle.ms_answer_laws.specs.Laws.{walked, steps_found};
ghost use Rattle.def_answer.specs.Reply.{reply, audited_reply, witness_reply, audit_reply};
ghost use Rattle.def_answer.specs.Lines.{MOST_FILE};
ghost use Rattle.ms_tree.specs.Shape.{shape};
ghost use Rattle.ms_replies.specs.Runs.{file_seen, outcome_for};
ghost use Rattle.ms_replies.specs.Answering.{RepliesWith};

use crate::files::file_answer;
use def_answer::Status;
use ms_assets::{RunFile, read_run};
use ms_audit::{AuditStop, audit};
use ms_emit::script_bytes;
use ms_oracle::{PairIndex, SigCheck};
use ms_report::{Answer, audit_report, not_accepted_line};
use ms_text::TextTree;
use std::alloc::{AllocError, Global};

/// The answer to a run file of these bytes for a text, as `audit` gives it: the file's refusal, or that its script
/// isn't the text's, or by which rows its stack satisfies the text, or why the run is refused. It demands that the
/// text's tree is valid, and that the file isn't too long. `AllocError` comes only where memory is wanting.
pub fn audit_answer(alloc: Global, text: &TextTree<'_>, bytes: &[u8]) -> Result<Answer, AllocError>
    requires in_range { IsInRange (shape text.now.tree) }
    requires valid { IsValid (shape text.now.tree) }
    requires short { length bytes.now ≤ MOST_FILE }
    ensures { RepliesWith result (audit_reply text.now.offsets.items (walked (shape text.now.tree) bytes.now) bytes.now (shape text.now.tree)) }
{
    match read_run(alloc, bytes) {
        Ok(file) => witness_answer(alloc, text, &file),
        Err(fault) => file_answer(alloc, fault),
    }
}

/// The answer to a run file that was read: that its script isn't the text's, or what an audit of it comes to.
fn witness_answer(alloc: Global, text: &TextTree<'_>, file: &RunFile) -> Result<Answer, AllocError>
    requires in_range { IsInRange (shape text.now.tree) }
    requires valid { IsValid (shape text.now.tree) }
    requires few { length file.now.stack ≤ MOST_ELEMENTS }
    ensures { RepliesWith result (witness_reply text.now.offsets.items (steps_found (shape text.now.tree) (file_seen file.now)) (shape text.now.tree) (file_seen file.now)) }
{
    let script = script_bytes(alloc, text.tree())?;
    if file.script.as_slice() != script.as_slice() {
        let line = String::from_str(alloc, "not accepted WrongScript\n")?;
        return Ok(not_accepted(line));
    }
    audited_answer(alloc, text, file)
}

/// The answer to a run file whose script is the text's: what an audit of it comes to.
fn audited_answer(alloc: Global, text: &TextTree<'_>, file: &RunFile) -> Result<Answer, AllocError>
    requires in_range { IsInRange (shape text.now.tree) }
    requires valid { IsValid (shape text.now.tree) }
    requires few { length file.now.stack ≤ MOST_ELEMENTS }
    ensures { RepliesWith result (audited_reply text.now.offsets.items (steps_found (shape text.now.tree) (file_seen file.now)) (outcome_for (shape text.now.tree) (file_seen file.now))) }
{
    let pairs = file.pairs.as_slice();
    let index = PairIndex::new(alloc, pairs)?;
    let sigs = SigCheck::new(pairs, |key: &[u8], sig: &[u8]| index.holds(key, sig));
    match audit(alloc, text.tree(), &file.stack, &file.locks, &sigs) {
        Ok(audit) => Ok(Answer {
            status: Status::Done,
            report: audit_report(
                alloc,
                text,
                audit.trail.as_slice(),
                audit.report.ops,
                audit.report.peak,
            )?,
        }),
        Err(AuditStop::Refused(fault, place)) => {
            Ok(not_accepted(not_accepted_line(alloc, fault, place)?))
        }
        Err(AuditStop::Memory) => Err(AllocError),
    }
}

/// The answer that a stack isn't accepted, with its line.
pub fn not_accepted(line: String) -> Answer
    ensures { reply result.status (string_bytes result.report) ≡ reply Status.NotAccepted (string_bytes line) }
{
    Answer {
        status: Status::NotAccepted,
        report: line,
    }
}
