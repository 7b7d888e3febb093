//! One turn of the loop: the lines that end in a piece of bytes.
ghost use Rattle.std.specs.Prelude.{◌≡◌, ℕ, ◌≤◌, List, [], ◌↔◌, IsTrue, OnOk, length};
ghost use Rattle.ms_io.specs.Sides.{side};
ghost use Rattle.ms_lines.specs.Starts.{beginning};
ghost use Rattle.ms_lines.specs.Turns.{kept, IsOf, Turns, Finishes};
ghost use Rattle.ms_lines.specs.Scaffolding.Steps.{GoesOn, EndsLine, PutsTurn};

use crate::answering::{MOST_LINE, Program, answer_line, put_lost, put_too_long};
use crate::feeds::first_line;
use crate::through::flush;
use json::Scratch;
use ms_io::{Sink, SinkFailed};
use std::alloc::Global;
use std::marker::Model;

/// How much of the beginning of a line is kept.
#[derive(Clone, Copy, Debug, PartialEq, Eq)]
enum Keeping {
    /// All of it.
    Whole,
    /// Nothing, since it has too many bytes.
    TooLong,
    /// Nothing, since memory was wanting.
    Lost,
}

/// The beginning of a line that isn't whole. Contracts see it as a `Beginning`.
#[derive(Drop)]
pub struct Start {
    bytes: Vec<u8>,
    keeping: Keeping,
}

impl Model for Start {
    ghost use Rattle.ms_lines.specs.Turns.{Beginning};

    ghost Value = { Beginning };

    ghost use Rattle.ms_lines.specs.Starts.{start_seen, IsShort};

    ghost view = { start_seen };

    ghost invariant = { IsShort };
}

impl Start {
    /// The beginning of a line of which no byte came. Takes no memory.
    pub fn new(alloc: Global) -> Start
        ensures { result ≡ kept [] }
    {
        Start {
            bytes: Vec::new(alloc),
            keeping: Keeping::Whole,
        }
    }

    /// Whether no byte of the line came.
    fn is_empty(&self) -> bool
        ensures { (begun : List ℕ) → IsOf self.now begun → IsTrue result ↔ (begun ≡ []) }
    {
        match self.keeping {
            Keeping::Whole => self.bytes.is_empty(),
            Keeping::TooLong | Keeping::Lost => false,
        }
    }

    /// Bytes of the line, without a line feed, come behind those that came.
    fn push(&mut self, bytes: &[u8])
        ensures { GoesOn self.old self.new bytes.now }
    {
        if bytes.is_empty() {
            return;
        }
        match self.keeping {
            Keeping::Whole => self.keeping = keep(&mut self.bytes, bytes),
            Keeping::TooLong | Keeping::Lost => {}
        }
    }

    /// Another line begins.
    fn clear(&mut self)
        ensures { self.new ≡ kept [] }
    {
        self.bytes.clear();
        self.keeping = Keeping::Whole;
    }
}

/// Keeps bytes behind those that are kept, where they aren't too many together.
fn keep(kept: &mut Vec<u8>, bytes: &[u8]) -> Keeping
    requires { length kept.old.items ≤ MOST_LINE }
    ensures keeping { GoesOn (beginning Keeping.Whole kept.old.items) (beginning result kept.new.items) bytes.now }
    ensures short { length kept.new.items ≤ MOST_LINE }
{
    if bytes.is_empty() {
        return Keeping::Whole;
    }
    if bytes.len() > MOST_LINE - kept.len() {
        return Keeping::TooLong;
    }
    if kept.extend_from_slice(bytes).is_err() {
        return Keeping::Lost;
    }
    Keeping::Whole
}

/// Writes the answers to exactly the lines that end in the piece, and leaves the beginning of the next one.
/// No byte waits in the buffer before, nor after it where the sink didn't fail.
pub fn turn<P: Program, K: Sink>(
    alloc: Global,
    program: &P,
    start: &mut Start,
    piece: &[u8],
    scratch: &mut Scratch,
    sink: &mut K,
    held: &mut Vec<u8>,
) -> Result<(), SinkFailed>
    requires { held.old.items ≡ [] }
    ensures turns { Turns P.answers start.old start.new piece.now (side K.written K.faults sink.old sink.new) result }
    ensures held { OnOk result (held.new.items ≡ []) }
{
    put_turn(alloc, program, start, piece, scratch, sink, held)?;
    flush(sink, held)
}

/// Puts the answers to the lines that end in the piece.
fn put_turn<P: Program, K: Sink>(
    alloc: Global,
    program: &P,
    start: &mut Start,
    piece: &[u8],
    scratch: &mut Scratch,
    sink: &mut K,
    held: &mut Vec<u8>,
) -> Result<(), SinkFailed>
    ensures { PutsTurn P.answers start.old start.new piece.now (side K.written K.faults sink.old sink.new) held.old.items held.new.items result }
{
    let mut rest = piece;
    while let Some((line, after)) = first_line(rest) {
        end_line(alloc, program, start, line, scratch, sink, held)?;
        rest = after;
    }
    start.push(rest);
    Ok(())
}

/// Puts the answer to the line that began so and ends with these bytes, and begins another one.
fn end_line<P: Program, K: Sink>(
    alloc: Global,
    program: &P,
    start: &mut Start,
    line: &[u8],
    scratch: &mut Scratch,
    sink: &mut K,
    held: &mut Vec<u8>,
) -> Result<(), SinkFailed>
    ensures ends { EndsLine P.answers start.old line.now (side K.written K.faults sink.old sink.new) held.old.items held.new.items result }
    ensures begins { start.new ≡ kept [] }
{
    if start.is_empty() {
        start.clear();
        return answer_line(alloc, program, line, scratch, sink, held);
    }
    start.push(line);
    let put = put_line(alloc, program, start, scratch, sink, held);
    start.clear();
    put
}

/// Puts the answer to the line whose bytes came.
fn put_line<P: Program, K: Sink>(
    alloc: Global,
    program: &P,
    start: &Start,
    scratch: &mut Scratch,
    sink: &mut K,
    held: &mut Vec<u8>,
) -> Result<(), SinkFailed>
    ensures { EndsLine P.answers start.now [] (side K.written K.faults sink.old sink.new) held.old.items held.new.items result }
{
    match start.keeping {
        Keeping::Whole => answer_line(alloc, program, &start.bytes, scratch, sink, held),
        Keeping::TooLong => put_too_long(sink, held),
        Keeping::Lost => put_lost(sink, held),
    }
}

/// Writes the answer to the line that began so, which no line feed ends, where it has a byte.
pub fn finish<P: Program, K: Sink>(
    alloc: Global,
    program: &P,
    start: &mut Start,
    scratch: &mut Scratch,
    sink: &mut K,
    held: &mut Vec<u8>,
) -> Result<(), SinkFailed>
    requires { held.old.items ≡ [] }
    ensures { Finishes P.answers start.old (side K.written K.faults sink.old sink.new) result }
{
    if start.is_empty() {
        return Ok(());
    }
    end_line(alloc, program, start, b"", scratch, sink, held)?;
    flush(sink, held)
}
