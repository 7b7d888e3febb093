//! A sink over memory that fails where it is told to, to try what writes to a sink.

ghost use Rattle.std.specs.Prelude.{◌≡◌, ◌^◌, ◌<◌, ◌≤◌, ◌↔◌, [], length, IsTrue, IsErr, IfOk, MatchResult, Some, vec_capacity};
ghost use Rattle.std.specs.Io.{WritesAtMost};
ghost use Rattle.std.specs.Io.KnownBytes.{WriteAppends};
ghost use Rattle.ms_io.specs.Faults.{HasCause};
ghost use Rattle.ms_io.specs.Memory.{SinkMemory, call_fails, put_fails, put_count, after_put, PutTakes, PutFails};

use crate::sink::{Sink, SinkFailed};
use std::alloc::{AllocError, Global};
use std::marker::Model;

/// A sink over memory that takes pieces in chunks, and fails where it is told to and where it is
/// full. Contracts see it as a `SinkMemory`.
#[derive(Drop)]
pub struct MemSink {
    bytes: Vec<u8>,
    room: usize,
    chunk: usize,
    fail_at: Vec<u64>,
    calls: u64,
    failures: u64,
}

impl Model for MemSink {
    ghost Value = { SinkMemory };

    ghost view = { λ s. record { bytes = s.bytes.items; room = s.room; chunk = s.chunk; fail_at = s.fail_at.items; calls = s.calls; failures = s.failures } };

    ghost invariant = { λ s. (length s.bytes.items ≤ s.room) × (s.room ≤ vec_capacity s.bytes) × (0 < s.chunk) };
}

impl MemSink {
    /// An empty sink with room for `room` bytes, at most 2^31, that takes at most `chunk` bytes a call, at least 1.
    /// The calls of `put` with the numbers of `fail_at`, counted from 0, fail, in any order and however often listed.
    ///
    /// Takes the memory for all `room` bytes and for a copy of `fail_at` at once, and answers `AllocError` only where
    /// that is wanting: no call of `put` takes memory.
    pub fn new(
        alloc: Global,
        room: usize,
        chunk: usize,
        fail_at: &[u64],
    ) -> Result<MemSink, AllocError>
        requires chunk { 1 ≤ chunk }
        requires room { room ≤ 2 ^ 31 }
        ensures { IfOk result (λ s. s ≡ record { bytes = []; room = room; chunk = chunk; fail_at = fail_at.now; calls = 0; failures = 0 }) }
    {
        let bytes = Vec::with_capacity(alloc, room)?;
        let fail_at = Vec::from_slice(alloc, fail_at)?;
        Ok(MemSink {
            bytes,
            room,
            chunk,
            fail_at,
            calls: 0,
            failures: 0,
        })
    }

    /// The bytes that were written, first one first.
    pub fn written(&self) -> &[u8]
        ensures { result.now ≡ self.now.bytes }
    {
        &self.bytes
    }
}

impl Sink for MemSink {
    ghost written = { λ s. Some s.bytes };

    ghost faults = { λ s. s.failures };

    ghost takes = { PutTakes };

    ghost fails = { PutFails };

    /// Takes the least of the chunk, the piece's length and the room that is left. Fails exactly where the number of
    /// the call is listed, or the piece isn't empty and no room is left. Takes no memory.
    fn put(&mut self, piece: &[u8]) -> Result<usize, SinkFailed>
        ensures bound { WritesAtMost result piece.now }
        ensures progress { 0 < length piece.now → IfOk result (λ n. 0 < n) }
        ensures bytes { WriteAppends (Some self.old.bytes) (Some self.new.bytes) result piece.now }
        ensures cause { HasCause self.old.failures self.new.failures result }
        ensures call { MatchResult result (λ n. PutTakes self.old piece.now n self.new) (λ _. PutFails self.old piece.now self.new) }
        ensures fails { IsErr result ↔ IsTrue (put_fails self.old piece.now) }
        ensures count { IfOk result (λ n. n ≡ put_count self.old piece.now) }
        ensures after { self.new ≡ after_put self.old piece.now }
    {
        let call = self.calls;
        self.calls = self.calls.saturating_add(1);
        let room_left = self.room - self.bytes.len();
        if call_fails(&self.fail_at, call) || (!piece.is_empty() && room_left == 0) {
            self.failures = self.failures.saturating_add(1);
            return Err(SinkFailed);
        }
        let count = self.chunk.min(piece.len().min(room_left));
        let Ok(()) = self.bytes.extend_from_slice(&piece[..count]) else {
            unreachable!()
        };
        Ok(count)
    }
}

/// Whether the call of this number fails.
pub(crate) fn call_fails(fail_at: &[u64], call: u64) -> bool
    ensures { result ≡ call_fails fail_at.now call }
{
    call < u64::MAX && fail_at.contains(&call)
}
