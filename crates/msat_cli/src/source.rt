//! The file that the source holds, and what is answered to it.
ghost use Rattle.std.specs.Prelude.{◌≤◌, length, IfOk, IfErr};
ghost use Rattle.def_tree.specs.InRange.{IsInRange};
ghost use Rattle.def_sane.specs.Unfit.{IsValid, IsSane};
ghost use Rattle.ms_answer_laws.specs.Laws.{walked};
ghost use Rattle.def_answer.specs.Reply.{satisfy_reply, run_reply, plan_reply, audit_reply, trace_reply, text_trace_reply};
ghost use Rattle.def_answer.specs.Lines.{MOST_FILE as most_file};
ghost use Rattle.ms_tree.specs.Shape.{shape};
ghost use Rattle.ms_replies.specs.ChoiceTrees.{valid_in, tree_in, chosen_in};
ghost use Rattle.ms_io.specs.Sides.{side};
ghost use Rattle.ms_io.specs.Reads.{ReadsFront, Held};
ghost use Rattle.msat_cli.specs.Scaffolding.Steps.{StopsReading, EndsFile};

use crate::answer::{Stop, or_memory};
use ms_io::{ReadStop, Source, read_all};
use ms_replies::{
    ChoiceTree, assets_answer, audit_answer, plan_answer, run_answer, text_trace_answer,
    trace_answer,
};
use ms_report::Answer;
use ms_sane::SaneTree;
use ms_text::TextTree;
use std::alloc::Global;

/// How many bytes a file may have.
pub const MOST_FILE: usize = 1_048_576;

/// Answers with the satisfaction of a tree by the assets of the file that the source holds.
pub fn answer_satisfaction<S: Source>(
    alloc: Global,
    tree: &mut ChoiceTree<'_>,
    source: &mut S,
) -> Result<Answer, Stop>
    ensures answer { EndsFile (λ bytes. satisfy_reply (valid_in tree.old).rules (chosen_in tree.old) bytes (tree_in tree.old)) (side S.left S.faults source.old source.new) result }
    ensures later { S.faults source.old ≤ S.faults source.new }
    ensures front { ReadsFront (S.left source.old) (S.left source.new) }
{
    let bytes = read_file(alloc, source)?;
    or_memory(assets_answer(alloc, tree, &bytes))
}

/// Answers which keys to ask for a signature for a tree that is sane by policy, by the plan file that the source holds.
pub fn answer_sane_plan<S: Source>(
    alloc: Global,
    sane: &SaneTree<'_>,
    source: &mut S,
) -> Result<Answer, Stop>
    requires { IsSane (shape sane.now.valid.tree) }
    ensures answer { EndsFile (λ bytes. plan_reply bytes (shape sane.now.valid.tree)) (side S.left S.faults source.old source.new) result }
    ensures later { S.faults source.old ≤ S.faults source.new }
    ensures front { ReadsFront (S.left source.old) (S.left source.new) }
{
    let bytes = read_file(alloc, source)?;
    or_memory(plan_answer(alloc, sane, &bytes))
}

/// Answers how the stack of the run file that the source holds satisfies the tree of a text, which is valid.
pub fn answer_valid_audit<S: Source>(
    alloc: Global,
    text: &TextTree<'_>,
    source: &mut S,
) -> Result<Answer, Stop>
    requires in_range { IsInRange (shape text.now.tree) }
    requires valid { IsValid (shape text.now.tree) }
    ensures answer { EndsFile (λ bytes. audit_reply text.now.offsets.items (walked (shape text.now.tree) bytes) bytes (shape text.now.tree)) (side S.left S.faults source.old source.new) result }
    ensures later { S.faults source.old ≤ S.faults source.new }
    ensures front { ReadsFront (S.left source.old) (S.left source.new) }
{
    let bytes = read_file(alloc, source)?;
    or_memory(audit_answer(alloc, text, &bytes))
}

/// Answers the run of the file that the source holds.
pub fn answer_run<S: Source>(alloc: Global, source: &mut S) -> Result<Answer, Stop>
    ensures answer { EndsFile run_reply (side S.left S.faults source.old source.new) result }
    ensures later { S.faults source.old ≤ S.faults source.new }
    ensures front { ReadsFront (S.left source.old) (S.left source.new) }
{
    let bytes = read_file(alloc, source)?;
    or_memory(run_answer(alloc, &bytes))
}

/// Answers the trace of the run of the file that the source holds, whose script has to be that of a text.
pub fn answer_text_trace<S: Source>(
    alloc: Global,
    text: &TextTree<'_>,
    source: &mut S,
) -> Result<Answer, Stop>
    requires { IsInRange (shape text.now.tree) }
    ensures answer { EndsFile (λ bytes. text_trace_reply text.now.offsets.items bytes (shape text.now.tree)) (side S.left S.faults source.old source.new) result }
    ensures later { S.faults source.old ≤ S.faults source.new }
    ensures front { ReadsFront (S.left source.old) (S.left source.new) }
{
    let bytes = read_file(alloc, source)?;
    or_memory(text_trace_answer(alloc, text, &bytes))
}

/// Answers the trace of the run of the file that the source holds.
pub fn answer_trace<S: Source>(alloc: Global, source: &mut S) -> Result<Answer, Stop>
    ensures answer { EndsFile trace_reply (side S.left S.faults source.old source.new) result }
    ensures later { S.faults source.old ≤ S.faults source.new }
    ensures front { ReadsFront (S.left source.old) (S.left source.new) }
{
    let bytes = read_file(alloc, source)?;
    or_memory(trace_answer(alloc, &bytes))
}

/// Reads the file that the source holds.
fn read_file<S: Source>(alloc: Global, source: &mut S) -> Result<Vec<u8>, Stop>
    ensures held { IfOk result (λ bytes. Held most_file (side S.left S.faults source.old source.new) bytes.items) }
    ensures short { IfOk result (λ bytes. length bytes.items ≤ most_file) }
    ensures stop { IfErr result (StopsReading (side S.left S.faults source.old source.new)) }
    ensures later { S.faults source.old ≤ S.faults source.new }
    ensures front { ReadsFront (S.left source.old) (S.left source.new) }
{
    match read_all(alloc, source, MOST_FILE) {
        Ok(bytes) => Ok(bytes),
        Err(ReadStop::TooLong) => Err(Stop::FileTooLong),
        Err(ReadStop::Fault) => Err(Stop::ReadFault),
        Err(ReadStop::Memory) => Err(Stop::Memory),
    }
}
