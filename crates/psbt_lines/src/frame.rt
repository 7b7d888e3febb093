//! The program's top call: `lines`, or `msat_psbt` unchanged.
ghost use Rattle.std.specs.Prelude.{◌≤◌};
ghost use Rattle.ms_frame.specs.Asking.{AsksLines};
ghost use Rattle.ms_frame.specs.Frame.{EndsAsLines};
ghost use Rattle.ms_io.specs.Sides.{call, side};
ghost use Rattle.ms_psbt_line_laws.specs.Psbt.{psbt_answers};
ghost use Rattle.psbt_lines.specs.Frame.{status_of};
ghost use Rattle.psbt_lines.specs.Promises.{IsCallOfPsbt};

use crate::answering::Psbt;
use def_psbt_answer::Status;
use ms_io::{Sink, Source};
use psbt_cli::Word;
use std::alloc::Global;

/// Answers the words of a command line: the one word `lines` by the answers to the lines of the source, and others as `msat_psbt`.
pub fn program<S: Source, K: Sink>(
    alloc: Global,
    words: &[Word],
    source: &mut S,
    sink: &mut K,
) -> Status
    // The answers to the lines of the source, in their order, each that of `msat_psbt` to the words and the source of a question.
    ensures lines { AsksLines words.now → EndsAsLines status_of psbt_answers (side S.left S.faults source.old source.new) (side K.written K.faults sink.old sink.new) result }
    // All that `msat_psbt` promises.
    ensures others { ¬ AsksLines words.now → IsCallOfPsbt (call words.now (side S.left S.faults source.old source.new) (side K.written K.faults sink.old sink.new) result) }
    ensures read_faults_later { S.faults source.old ≤ S.faults source.new }
    ensures write_faults_later { K.faults sink.old ≤ K.faults sink.new }
{
    ms_frame::program(alloc, Psbt, words, source, sink)
}
