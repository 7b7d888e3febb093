//! A reader and a writer of std as a source and a sink, which count the calls that fail.

ghost use Rattle.std.specs.Prelude.{◌≡◌, ◌<◌, length, IfOk, OnOk, OnErr, MatchResult};
ghost use Rattle.std.specs.Io.{ReadsAtMost, WritesAtMost};
ghost use Rattle.std.specs.Io.KnownBytes.{ReadConsumes, WriteAppends};
ghost use Rattle.ms_io.specs.Faults.{HasCause, next_count};

use crate::sink::{Sink, SinkFailed};
use crate::source::{Source, SourceFailed};
use std::io::{Read, Write};

/// A reader of std's as a source, as standard input. It tells the bytes that its reader tells, which
/// for a file, a pipe or a terminal are none.
#[derive(Drop)]
pub struct StdSource<R: Read + Drop> {
    /// The reader that gives the bytes.
    pub reader: R,
    /// How many reads have failed, up to 2^64 - 1.
    pub faults: u64,
}

impl<R: Read + Drop> StdSource<R> {
    /// The reader as a source of which no read has failed yet. Takes no memory.
    pub fn new(reader: R) -> StdSource<R>
        ensures reader { result.reader ≡ reader }
        ensures faults { result.faults ≡ 0 }
    {
        StdSource { reader, faults: 0 }
    }
}

impl<R: Read + Drop> Source for StdSource<R> {
    ghost left = { λ s. R.remaining s.reader };

    ghost faults = { λ s. s.faults };

    ghost gives = { λ old _ _ new. new.faults ≡ old.faults };

    ghost fails = { λ old _ new. new.faults ≡ next_count old.faults };

    /// One call of the reader. Whatever error it answers is a fault, an interrupted call too.
    fn read(&mut self, buf: &mut [u8]) -> Result<usize, SourceFailed>
        ensures bound { ReadsAtMost result buf.new }
        ensures bytes { ReadConsumes (R.remaining self.old.reader) (R.remaining self.new.reader) result buf.new }
        ensures cause { HasCause self.old.faults self.new.faults result }
        ensures kept { OnOk result (self.new.faults ≡ self.old.faults) }
        ensures counted { OnErr result (self.new.faults ≡ next_count self.old.faults) }
        ensures call { MatchResult result (λ _. self.new.faults ≡ self.old.faults) (λ _. self.new.faults ≡ next_count self.old.faults) }
    {
        match self.reader.read(buf) {
            Ok(count) => Ok(count),
            Err(_) => {
                self.faults = self.faults.saturating_add(1);
                Err(SourceFailed)
            }
        }
    }
}

/// A writer of std's as a sink, as standard output. It tells the bytes that its writer tells. A
/// write that takes nothing of a piece counts as a fault.
#[derive(Drop)]
pub struct StdSink<W: Write + Drop> {
    /// The writer that takes the bytes.
    pub writer: W,
    /// How many writes have failed, up to 2^64 - 1.
    pub faults: u64,
}

impl<W: Write + Drop> StdSink<W> {
    /// The writer as a sink of which no write has failed yet. Takes no memory.
    pub fn new(writer: W) -> StdSink<W>
        ensures writer { result.writer ≡ writer }
        ensures faults { result.faults ≡ 0 }
    {
        StdSink { writer, faults: 0 }
    }
}

impl<W: Write + Drop> Sink for StdSink<W> {
    ghost written = { λ s. W.contents s.writer };

    ghost faults = { λ s. s.faults };

    ghost takes = { λ old _ _ new. new.faults ≡ old.faults };

    ghost fails = { λ old _ new. new.faults ≡ next_count old.faults };

    /// One call of the writer, which isn't flushed. Whatever error it answers is a fault, an interrupted call too.
    fn put(&mut self, piece: &[u8]) -> Result<usize, SinkFailed>
        ensures bound { WritesAtMost result piece.now }
        ensures progress { 0 < length piece.now → IfOk result (λ n. 0 < n) }
        ensures bytes { WriteAppends (W.contents self.old.writer) (W.contents self.new.writer) result piece.now }
        ensures cause { HasCause self.old.faults self.new.faults result }
        ensures kept { OnOk result (self.new.faults ≡ self.old.faults) }
        ensures counted { OnErr result (self.new.faults ≡ next_count self.old.faults) }
        ensures call { MatchResult result (λ _. self.new.faults ≡ self.old.faults) (λ _. self.new.faults ≡ next_count self.old.faults) }
    {
        match self.writer.write(piece) {
            Ok(count) if count > 0 || piece.is_empty() => Ok(count),
            _ => {
                self.faults = self.faults.saturating_add(1);
                Err(SinkFailed)
            }
        }
    }
}
