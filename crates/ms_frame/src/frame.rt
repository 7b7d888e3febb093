//! A program's top call: `lines`, or its other words unchanged.
ghost use Rattle.std.specs.Prelude.{◌≤◌};
ghost use Rattle.ms_io.specs.Sides.{call, side};
ghost use Rattle.ms_frame.specs.Asking.{AsksLines};
ghost use Rattle.ms_frame.specs.Frame.{EndsAsLines, answers_by_code};

use crate::answering::{OfWords, Questions};
use crate::asking::asks_lines;
use ms_io::{Sink, Source};
use ms_lines::answer_lines;
use ms_words::Word;
use std::alloc::Global;

/// Answers the words of a command line: the one word `lines` by the program's answers to the lines of the source, and others as it
/// does.
pub fn program<P: OfWords, S: Source, K: Sink>(
    alloc: Global,
    program: P,
    words: &[Word],
    source: &mut S,
    sink: &mut K,
) -> P::Status
    ensures lines { AsksLines words.now → EndsAsLines P.status_of (answers_by_code P.answers P.code) (side S.left S.faults source.old source.new) (side K.written K.faults sink.old sink.new) result }
    ensures others { ¬ AsksLines words.now → P.promises (call words.now (side S.left S.faults source.old source.new) (side K.written K.faults sink.old sink.new) result) }
    ensures read_faults_later { S.faults source.old ≤ S.faults source.new }
    ensures write_faults_later { K.faults sink.old ≤ K.faults sink.new }
{
    if asks_lines(words) {
        return P::status_of(answer_lines(alloc, &Questions(program), source, sink));
    }
    program.call(alloc, words, source, sink)
}
