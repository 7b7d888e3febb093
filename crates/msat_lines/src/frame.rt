//! The program's top call: `lines`, or `msat` unchanged.
ghost use Rattle.std.specs.Prelude.{◌≤◌, IfOk};
ghost use Rattle.def_lines.specs.Msat.{msat_answers};
ghost use Rattle.ms_frame.specs.Asking.{AsksLines};
ghost use Rattle.ms_frame.specs.Frame.{EndsAsLines};
ghost use Rattle.ms_io.specs.Sides.{call, side};
ghost use Rattle.msat_lines.specs.Frame.{WholeAnswer, status_of};
ghost use Rattle.msat_cli.specs.Promises.{IsCallOfMsat};

use crate::answering::Msat;
use def_answer::Status;
use ms_frame::{Questions, Replied, answer_in_memory, asks_lines, lines_in_memory};
use ms_io::{Sink, Source};
use msat_cli::Word;
use std::alloc::{AllocError, Global};

/// Answers the words of a command line: the one word `lines` by the answers to the lines of the source, and others as `msat`.
pub fn program<S: Source, K: Sink>(
    alloc: Global,
    words: &[Word],
    source: &mut S,
    sink: &mut K,
) -> Status
    // The answers to the lines of the source, in their order, each that of `msat` to the words and the source of a question.
    ensures lines { AsksLines words.now → EndsAsLines status_of msat_answers (side S.left S.faults source.old source.new) (side K.written K.faults sink.old sink.new) result }
    // All that `msat` promises.
    ensures others { ¬ AsksLines words.now → IsCallOfMsat (call words.now (side S.left S.faults source.old source.new) (side K.written K.faults sink.old sink.new) result) }
    ensures read_faults_later { S.faults source.old ≤ S.faults source.new }
    ensures write_faults_later { K.faults sink.old ≤ K.faults sink.new }
{
    ms_frame::program(alloc, Msat, words, source, sink)
}

/// Answers the words where the source and the sink lie in memory. Refuses for want of memory alone.
pub fn answer_whole(
    alloc: Global,
    words: &[Word],
    source: &[u8],
) -> Result<Replied<Status>, AllocError>
    ensures { IfOk result (λ replied. WholeAnswer words.now source.now replied.status replied.report.items) }
{
    if asks_lines(words) {
        let report = lines_in_memory(alloc, &Questions(Msat), source)?;
        return Ok(Replied {
            status: Status::Done,
            report,
        });
    }
    answer_in_memory(alloc, &Msat, words, source)
}
