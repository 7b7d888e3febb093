//! A program of words, and its answers where the source and the sink lie in memory.
ghost use Rattle.std.specs.Prelude.{◌≡◌, ◌≤◌, ℕ, IsTrue, IfOk};
ghost use Rattle.ms_io.specs.Endings.{AnswersWith, WritesAnswerOf};
ghost use Rattle.ms_io.specs.Sides.{CallWith, call, side};
ghost use Rattle.ms_lines.specs.declared.stream.Ending.{Ending};
ghost use Rattle.def_lines.specs.Answers.{AnswersLines};
ghost use Rattle.ms_frame.specs.Frame.{answers_by_code};

use crate::asking::words_of;
use ms_io::{ByteSource, Sink, Source};
use ms_lines::{ByteSink, Ending, Outcome, Program, answer_lines};
use ms_words::Word;
use std::alloc::{AllocError, Global};

/// A program that answers the words of a command line and what its source holds.
pub trait OfWords: Copy {
    /// How its calls end.
    type Status: Copy;

    // Which statuses and reports are its answers.
    ghost answers: { AnswersWith Self.Status };

    // The exit code of a status.
    ghost code: { Self.Status → ℕ };

    // The status of a call that answers lines.
    ghost status_of: { Ending → Self.Status };

    // All that it promises of a call.
    ghost promises: { CallWith Self.Status → Type 0 };

    /// Answers the words of a command line.
    fn call<S: Source, K: Sink>(
        &self,
        alloc: Global,
        words: &[Word],
        source: &mut S,
        sink: &mut K,
    ) -> Self::Status
        ensures promises { promises (call words.now (side S.left S.faults source.old source.new) (side K.written K.faults sink.old sink.new) result) }
        ensures read_faults_later { S.faults source.old ≤ S.faults source.new }
        ensures write_faults_later { K.faults sink.old ≤ K.faults sink.new };

    /// Whether the report was written whole that goes with this status.
    fn is_whole(status: Self::Status) -> bool
        ensures { IsTrue result → (c : CallWith Self.Status) → c.status ≡ status → promises c → WritesAnswerOf answers c };

    /// The exit code of a status.
    fn code(status: Self::Status) -> u8
        ensures { result ≡ code status };

    /// The status of a call that answers lines.
    fn status_of(ending: Ending) -> Self::Status
        ensures { result ≡ status_of ending };
}

/// A status, and the whole report that goes with it.
#[derive(Drop)]
pub struct Replied<S> {
    /// The status.
    pub status: S,
    /// The report's bytes.
    pub report: Vec<u8>,
}

/// Answers the words as the program does where its standard input holds the source. Refuses for want of memory alone.
pub fn answer_in_memory<P: OfWords>(
    alloc: Global,
    program: &P,
    words: &[Word],
    source: &[u8],
) -> Result<Replied<P::Status>, AllocError>
    ensures { IfOk result (λ replied. P.answers words.now source.now replied.status replied.report.items) }
{
    let mut source = ByteSource::new(source);
    let mut sink = ByteSink::new(alloc);
    let status = program.call(alloc, words, &mut source, &mut sink);
    if !P::is_whole(status) {
        return Err(AllocError);
    }
    Ok(Replied {
        status,
        report: sink.bytes,
    })
}

/// A program's answers to the lines of the source, one after the other. Refuses for want of memory alone.
pub fn lines_in_memory<P: Program>(
    alloc: Global,
    program: &P,
    source: &[u8],
) -> Result<Vec<u8>, AllocError>
    ensures { IfOk result (λ report. AnswersLines P.answers source.now report.items) }
{
    let mut source = ByteSource::new(source);
    let mut sink = ByteSink::new(alloc);
    match answer_lines(alloc, program, &mut source, &mut sink) {
        Ending::Done => Ok(sink.bytes),
        Ending::ReadFault | Ending::WriteFault | Ending::Memory => Err(AllocError),
    }
}

/// A program as one that answers questions, by its exit codes.
#[derive(Clone, Copy, Debug)]
pub struct Questions<P>(pub P);

impl<P: OfWords> Program for Questions<P> {
    ghost answers = { answers_by_code P.answers P.code };

    /// Answers with the exit code of the program and its report.
    fn answer(
        &self,
        alloc: Global,
        words: Vec<String>,
        source: &[u8],
    ) -> Result<Outcome, AllocError> {
        let words = words_of(alloc, words)?;
        let replied = answer_in_memory(alloc, &self.0, &words, source)?;
        Ok(Outcome {
            status: P::code(replied.status),
            report: replied.report,
        })
    }
}
