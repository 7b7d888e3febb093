//! The top call: the answer to words and a source, written to a sink.
ghost use Rattle.std.specs.Prelude.{◌≤◌};
ghost use Rattle.ms_io.specs.Endings.{Writes};
ghost use Rattle.ms_io.specs.Sides.{call, side};
ghost use Rattle.msat_cli.specs.Promises.{IsCallOfMsat};
ghost use Rattle.msat_cli.specs.Scaffolding.Steps.{WritesResult};

use crate::answer::{Stop, answer_words};
use bumpalo::Bump;
use def_answer::Status;
use ms_io::{Sink, Source, put_report};
use ms_report::Answer;
use ms_words::Word;
use std::alloc::Global;

const USAGE: &[u8] = b"refused usage\n";

const TEXT_TOO_LONG: &[u8] = b"refused text TooLong\n";

const FILE_TOO_LONG: &[u8] = b"refused file TooLong\n";

/// Answers the words of a command line: makes the report, writes it to the sink by one call of `put_report`, and gives
/// the status. The words are `script TEXT`, `asm TEXT`, `check TEXT`, `satisfy TEXT`, `satisfy --malleable TEXT`, each of them
/// also with `--consensus` before TEXT, and `run`, `gen N`, `policy TEXT`, `plan TEXT`, `audit TEXT`, `trace`, `trace TEXT` and
/// `decode HEX KEY..`. The source is read only for `run` and for `trace` alone, and for `satisfy`, `plan`, `audit` and
/// `trace` with a text where this was neither refused nor unfit.
pub fn msat<S: Source, K: Sink>(
    alloc: Global,
    words: &[Word],
    source: &mut S,
    sink: &mut K,
) -> Status
    // All that it promises of a call, fact by fact.
    ensures promises { IsCallOfMsat (call words.now (side S.left S.faults source.old source.new) (side K.written K.faults sink.old sink.new) result) }

    // Faults are counted.
    ensures read_faults_later { S.faults source.old ≤ S.faults source.new }
    ensures write_faults_later { K.faults sink.old ≤ K.faults sink.new }
{
    let arena = Bump::new(alloc);
    let answer = answer_words(alloc, &arena, words, source);
    write_answer(sink, answer)
}

/// Writes the report of an answer, and gives its status.
fn write_answer<K: Sink>(sink: &mut K, answer: Result<Answer, Stop>) -> Status
    ensures end { WritesResult answer (side K.written K.faults sink.old sink.new) result }
    ensures faults_later { K.faults sink.old ≤ K.faults sink.new }
{
    match answer {
        Ok(answer) => write(sink, answer.status, answer.report.as_bytes()),
        Err(Stop::Usage) => write(sink, Status::Usage, USAGE),
        Err(Stop::TextTooLong) => write(sink, Status::TextRefused, TEXT_TOO_LONG),
        Err(Stop::FileTooLong) => write(sink, Status::FileRefused, FILE_TOO_LONG),
        Err(Stop::ReadFault) => Status::ReadFault,
        Err(Stop::Memory) => Status::Memory,
    }
}

/// Writes a report with this status.
fn write<K: Sink>(sink: &mut K, status: Status, report: &[u8]) -> Status
    ensures end { Writes Status.WriteFault status report.now (side K.written K.faults sink.old sink.new) result }
    ensures faults_later { K.faults sink.old ≤ K.faults sink.new }
{
    put_report(sink, report, status, Status::WriteFault)
}
