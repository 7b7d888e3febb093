//! The loop over the pieces of a source.
ghost use Rattle.std.specs.Prelude.{◌<◌, ◌≤◌, length};
ghost use Rattle.ms_io.specs.Sides.{side};
ghost use Rattle.ms_lines.specs.Streams.{EndsLines};

use crate::answering::Program;
use crate::turns::{Start, finish, turn};
use json::Scratch;
use ms_io::{Sink, Source};
use std::alloc::Global;

/// How many bytes are read at once, at most.
const PIECE: usize = 65_536;

/// How a call that answers the lines of a source ended.
#[derive(Clone, Copy, Debug, PartialEq, Eq)]
pub enum Ending {
    /// The source was read to its end, and each line was answered.
    Done,
    /// Reading failed.
    ReadFault,
    /// Writing failed.
    WriteFault,
    /// There was no memory to begin with.
    Memory,
}

/// Answers the lines of a source, in their order: each turn of the loop reads a piece, and writes the answers to the lines that
/// end in it.
pub fn answer_lines<P: Program, S: Source, K: Sink>(
    alloc: Global,
    program: &P,
    source: &mut S,
    sink: &mut K,
) -> Ending
    ensures ends { EndsLines P.answers result (side S.left S.faults source.old source.new) (side K.written K.faults sink.old sink.new) }
    ensures read_faults_later { S.faults source.old ≤ S.faults source.new }
    ensures write_faults_later { K.faults sink.old ≤ K.faults sink.new }
{
    let Ok(mut piece) = vec![in alloc; 0; PIECE] else {
        return Ending::Memory;
    };
    answer_pieces(alloc, program, source, sink, &mut piece)
}

/// Answers the lines of a source, which is read by pieces as long as the buffer.
fn answer_pieces<P: Program, S: Source, K: Sink>(
    alloc: Global,
    program: &P,
    source: &mut S,
    sink: &mut K,
    piece: &mut [u8],
) -> Ending
    requires { 0 < length piece.old }
    ensures ends { EndsLines P.answers result (side S.left S.faults source.old source.new) (side K.written K.faults sink.old sink.new) }
    ensures read_faults_later { S.faults source.old ≤ S.faults source.new }
    ensures write_faults_later { K.faults sink.old ≤ K.faults sink.new }
{
    let mut start = Start::new(alloc);
    let mut scratch = Scratch::new(alloc);
    let mut held = Vec::new(alloc);
    'turns: for _ in 0..u64::MAX {
        let Ok(count) = source.read(piece) else {
            return Ending::ReadFault;
        };
        if count == 0 {
            return match finish(alloc, program, &mut start, &mut scratch, sink, &mut held) {
                Ok(()) => Ending::Done,
                Err(_) => Ending::WriteFault,
            };
        }
        let Ok(()) = turn(
            alloc,
            program,
            &mut start,
            &piece[..count],
            &mut scratch,
            sink,
            &mut held,
        ) else {
            return Ending::WriteFault;
        };
    }
    Ending::ReadFault
}
