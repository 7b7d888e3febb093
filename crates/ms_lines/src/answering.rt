//! The answer to a line.
ghost use Rattle.std.specs.Prelude.{◌≡◌, ℕ, List, [], map, IfOk, None};
ghost use Rattle.std.specs.String.{string_bytes};
ghost use Rattle.serde_json.specs.View.{view};
ghost use Rattle.def_files.specs.Json.{reading};
ghost use Rattle.def_lines.specs.Answers.{AnswersLine};
ghost use Rattle.def_lines.specs.Answer.{answer_line as the_answer_line, fault_line};
ghost use Rattle.def_lines.specs.Question.{line_in, line_read, text_in};
ghost use Rattle.ms_io.specs.Sides.{side};
ghost use Rattle.ms_lines.specs.Puts.{Puts, AnswersOrLacks};
ghost use Rattle.ms_lines.specs.Seen.{plain_seen};
ghost use Rattle.ms_lines.specs.Through.{PassesOrFails};

use crate::answer::put_answer;
use crate::plain::{Plain, read_plain};
use crate::question::{Asked, Question, copy_words, read_question};
use def_lines::{LineFault, Part};
use json::Scratch;
use ms_io::{Sink, SinkFailed};
use serde_json::Value;
use std::alloc::{AllocError, Global};

/// How many bytes a line may have.
pub const MOST_LINE: usize = 1_048_576;

/// The status of an answer to a line that is no question.
const REFUSED: u8 = 12;

/// The status of an answer for which memory was wanting.
const NO_MEMORY: u8 = 7;

/// An exit status, and the whole report that goes with it.
#[derive(Drop)]
pub struct Outcome {
    /// The exit status.
    pub status: u8,
    /// The report's bytes.
    pub report: Vec<u8>,
}

/// A program that answers words and what its source holds.
pub trait Program {
    // Which exit statuses and reports are its answers to words and to the bytes of a source.
    ghost answers: { List (List ℕ) → List ℕ → ℕ → List ℕ → Type 0 };

    /// Answers, want of memory aside.
    fn answer(
        &self,
        alloc: Global,
        words: Vec<String>,
        source: &[u8],
    ) -> Result<Outcome, AllocError>
        ensures { IfOk result (λ outcome. answers (map string_bytes words.items) source.now outcome.status outcome.report.items) };
}

/// Writes the answer to a line's bytes. A question is read from its tokens, in the room of the lines before; another line, and one for which memory was
/// wanting there, as a value.
pub fn answer_line<P: Program, K: Sink>(
    alloc: Global,
    program: &P,
    line: &[u8],
    scratch: &mut Scratch,
    sink: &mut K,
    held: &mut Vec<u8>,
) -> Result<(), SinkFailed>
    ensures { Puts (AnswersLine P.answers line.now) (side K.written K.faults sink.old sink.new) held.old.items held.new.items result }
{
    if line.len() > MOST_LINE {
        return put_too_long(sink, held);
    }
    match read_plain(alloc, line, scratch) {
        Ok(question) => answer_plain(alloc, program, question, sink, held),
        Err(_) => answer_other(alloc, program, line, sink, held),
    }
}

/// Writes the answer to a question that was read from its tokens.
fn answer_plain<P: Program, K: Sink>(
    alloc: Global,
    program: &P,
    question: Plain<'_>,
    sink: &mut K,
    held: &mut Vec<u8>,
) -> Result<(), SinkFailed>
    ensures { Puts (AnswersOrLacks P.answers (plain_seen question.entry)) (side K.written K.faults sink.old sink.new) held.old.items held.new.items result }
{
    let Plain { id, words, source } = question;
    match program.answer(alloc, words, source.as_bytes()) {
        Ok(outcome) => put_answer(sink, held, id, outcome.status, &outcome.report),
        Err(AllocError) => put_answer(sink, held, id, NO_MEMORY, b""),
    }
}

/// Writes the answer to a line that is read as a value, for which `serde_json` clears room anew.
#[inline(never)]
fn answer_other<P: Program, K: Sink>(
    alloc: Global,
    program: &P,
    line: &[u8],
    sink: &mut K,
    held: &mut Vec<u8>,
) -> Result<(), SinkFailed>
    ensures { Puts (AnswersOrLacks P.answers (line_read (reading line.now))) (side K.written K.faults sink.old sink.new) held.old.items held.new.items result }
{
    match Value::from_slice(alloc, line) {
        Ok(value) => answer_value(alloc, program, &value, sink, held),
        Err(error) if error.is_memory() => put_lost(sink, held),
        Err(_) => put_answer(sink, held, None, REFUSED, report_of(LineFault::NotJson)),
    }
}

/// Writes the answer to the value of a line.
fn answer_value<P: Program, K: Sink>(
    alloc: Global,
    program: &P,
    value: &Value,
    sink: &mut K,
    held: &mut Vec<u8>,
) -> Result<(), SinkFailed>
    ensures { Puts (AnswersOrLacks P.answers (line_in (view value.now))) (side K.written K.faults sink.old sink.new) held.old.items held.new.items result }
{
    match read_question(value) {
        Asked::Refused(id, fault) => put_answer(sink, held, id, REFUSED, report_of(fault)),
        Asked::Question(question) => match answer_question(alloc, program, question) {
            Ok(outcome) => put_answer(sink, held, question.id, outcome.status, &outcome.report),
            Err(AllocError) => put_answer(sink, held, question.id, NO_MEMORY, b""),
        },
    }
}

/// The program's answer to a question.
fn answer_question<P: Program>(
    alloc: Global,
    program: &P,
    question: Question<'_>,
) -> Result<Outcome, AllocError>
    ensures { IfOk result (λ outcome. P.answers (map text_in (map view question.entry.words.now)) question.entry.source.now outcome.status outcome.report.items) }
{
    let words = copy_words(alloc, question.words)?;
    program.answer(alloc, words, question.source.as_bytes())
}

/// Writes the answer to a line that has too many bytes.
pub fn put_too_long<K: Sink>(sink: &mut K, held: &mut Vec<u8>) -> Result<(), SinkFailed>
    ensures { PassesOrFails (side K.written K.faults sink.old sink.new) held.old.items held.new.items (the_answer_line None REFUSED (fault_line LineFault.TooLong)) result }
{
    put_answer(sink, held, None, REFUSED, report_of(LineFault::TooLong))
}

/// Writes the answer to a line for which memory was wanting.
pub fn put_lost<K: Sink>(sink: &mut K, held: &mut Vec<u8>) -> Result<(), SinkFailed>
    ensures { PassesOrFails (side K.written K.faults sink.old sink.new) held.old.items held.new.items (the_answer_line None NO_MEMORY []) result }
{
    put_answer(sink, held, None, NO_MEMORY, b"")
}

/// The report of a refusal.
fn report_of(fault: LineFault) -> &'static [u8]
    ensures { result.now ≡ fault_line fault }
{
    match fault {
        LineFault::TooLong => b"refused line TooLong\n",
        LineFault::NotJson => b"refused line NotJson\n",
        LineFault::Shape(Part::Line) => b"refused line Shape line\n",
        LineFault::Shape(Part::Id) => b"refused line Shape id\n",
        LineFault::Shape(Part::Words) => b"refused line Shape words\n",
        LineFault::Shape(Part::Source) => b"refused line Shape source\n",
    }
}
