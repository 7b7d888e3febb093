//! A source and a sink that never fail.

ghost use Rattle.std.specs.Prelude.{◌≡◌, ℕ, ◌<◌, min, List, length, take, drop, None, Some, Ok, IfOk, MatchResult};
ghost use Rattle.std.specs.Io.{ReadsAtMost, WritesAtMost};
ghost use Rattle.std.specs.Io.KnownBytes.{ReadConsumes, WriteAppends};
ghost use Rattle.ms_io.specs.Faults.{HasCause};

use crate::sink::{Sink, SinkFailed};
use crate::source::{Source, SourceFailed};
use std::marker::Model;

/// A source of bytes that were lent, which never fails. Contracts see it as the bytes that are left.
#[derive(Drop)]
pub struct ByteSource<'a> {
    rest: &'a [u8],
}

impl<'a> Model for ByteSource<'a> {
    ghost Value = { List ℕ };

    ghost view = { λ s. s.rest.now };
}

impl<'a> ByteSource<'a> {
    /// A source of these bytes, first one first. Takes no memory.
    pub fn new(bytes: &'a [u8]) -> ByteSource<'a>
        ensures { result ≡ bytes.now }
    {
        ByteSource { rest: bytes }
    }
}

impl<'a> Source for ByteSource<'a> {
    ghost left = { λ s. Some s };

    ghost faults = { λ _. 0 };

    ghost gives = { λ old room bytes new. (bytes ≡ take room old) × (new ≡ drop room old) };

    ghost fails = { λ _ _ _. ⊥ };

    /// Gives as many bytes as the buffer has room for, or all that are left.
    fn read(&mut self, buf: &mut [u8]) -> Result<usize, SourceFailed>
        ensures bound { ReadsAtMost result buf.new }
        ensures bytes { ReadConsumes (Some self.old) (Some self.new) result buf.new }
        ensures cause { HasCause 0 0 result }
        ensures call { MatchResult result (λ n. (take n buf.new ≡ take (length buf.old) self.old) × (self.new ≡ drop (length buf.old) self.old)) (λ _. ⊥) }
        ensures count { result ≡ Ok (min (length buf.old) (length self.old)) }
    {
        let count = copy_front(self.rest, buf);
        self.rest = &self.rest[count..];
        Ok(count)
    }
}

/// Copies as many bytes as both have from the front of `from` to the front of `to`.
pub(crate) fn copy_front(from: &[u8], to: &mut [u8]) -> usize
    ensures count { result ≡ min (length to.old) (length from.now) }
    ensures copied { take result to.new ≡ take result from.now }
{
    let count = from.len().min(to.len());
    to[..count].copy_from_slice(&from[..count]);
    count
}

/// A sink that takes each piece whole, keeps nothing, and never fails.
#[derive(Clone, Copy, Debug, PartialEq, Eq)]
pub struct NullSink;

impl NullSink {
    /// The sink, which has nothing inside. Takes no memory.
    pub fn new() -> NullSink {
        NullSink
    }
}

impl Default for NullSink {
    fn default() -> NullSink {
        NullSink::new()
    }
}

impl Sink for NullSink {
    ghost written = { λ _. None };

    ghost faults = { λ _. 0 };

    ghost takes = { λ _ piece count _. count ≡ length piece };

    ghost fails = { λ _ _ _. ⊥ };

    /// Takes all of the piece.
    fn put(&mut self, piece: &[u8]) -> Result<usize, SinkFailed>
        ensures bound { WritesAtMost result piece.now }
        ensures progress { 0 < length piece.now → IfOk result (λ n. 0 < n) }
        ensures bytes { WriteAppends None None result piece.now }
        ensures cause { HasCause 0 0 result }
        ensures call { MatchResult result (λ n. n ≡ length piece.now) (λ _. ⊥) }
        ensures whole { result ≡ Ok (length piece.now) }
    {
        Ok(piece.len())
    }
}
