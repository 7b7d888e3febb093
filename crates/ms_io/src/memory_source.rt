//! A source over memory that fails where it is told to, to try what reads from a source.

ghost use Rattle.std.specs.Prelude.{◌≡◌, ◌<◌, ◌≤◌, ◌↔◌, length, take, drop, IsTrue, IsErr, IfOk, MatchResult, Some};
ghost use Rattle.std.specs.Io.{ReadsAtMost};
ghost use Rattle.std.specs.Io.KnownBytes.{ReadConsumes};
ghost use Rattle.ms_io.specs.Faults.{HasCause};
ghost use Rattle.ms_io.specs.Memory.{SourceMemory, call_fails, read_count, after_read, ReadGives, ReadFails};

use crate::memory::call_fails;
use crate::source::{Source, SourceFailed};
use crate::sure::copy_front;
use std::marker::Model;

/// A source over memory that gives its bytes in chunks, and fails where it is told to. Contracts see
/// it as an `SourceMemory`.
#[derive(Drop)]
pub struct MemSource {
    bytes: Vec<u8>,
    at: usize,
    chunk: usize,
    fail_at: Vec<u64>,
    calls: u64,
    failures: u64,
}

impl Model for MemSource {
    ghost Value = { SourceMemory };

    ghost view = { λ s. record { left = drop s.at s.bytes.items; chunk = s.chunk; fail_at = s.fail_at.items; calls = s.calls; failures = s.failures } };

    ghost invariant = { λ s. (s.at ≤ length s.bytes.items) × (0 < s.chunk) };
}

impl MemSource {
    /// A source of `bytes`, first one first, that gives at most `chunk` bytes a call, at least 1. The calls of `read`
    /// with the numbers of `fail_at`, counted from 0, fail. Takes no memory and never fails.
    pub fn new(bytes: Vec<u8>, chunk: usize, fail_at: Vec<u64>) -> MemSource
        requires { 1 ≤ chunk }
        ensures { result ≡ record { left = bytes.items; chunk = chunk; fail_at = fail_at.items; calls = 0; failures = 0 } }
    {
        MemSource {
            bytes,
            at: 0,
            chunk,
            fail_at,
            calls: 0,
            failures: 0,
        }
    }
}

impl Source for MemSource {
    ghost left = { λ s. Some s.left };

    ghost faults = { λ s. s.failures };

    ghost gives = { ReadGives };

    ghost fails = { ReadFails };

    /// Gives the least of the chunk, the buffer's length and the bytes that are left. Fails exactly where the number
    /// of the call is listed, and gives nothing then.
    fn read(&mut self, buf: &mut [u8]) -> Result<usize, SourceFailed>
        ensures bound { ReadsAtMost result buf.new }
        ensures bytes { ReadConsumes (Some self.old.left) (Some self.new.left) result buf.new }
        ensures cause { HasCause self.old.failures self.new.failures result }
        ensures call { MatchResult result (λ n. ReadGives self.old (length buf.old) (take n buf.new) self.new) (λ _. ReadFails self.old (length buf.old) self.new) }
        ensures fails { IsErr result ↔ IsTrue (call_fails self.old.fail_at self.old.calls) }
        ensures count { IfOk result (λ n. n ≡ read_count self.old (length buf.old)) }
        ensures after { self.new ≡ after_read self.old (length buf.old) }
    {
        let call = self.calls;
        self.calls = self.calls.saturating_add(1);
        if call_fails(&self.fail_at, call) {
            self.failures = self.failures.saturating_add(1);
            return Err(SourceFailed);
        }
        let rest = &self.bytes[self.at..];
        let offered = self.chunk.min(rest.len());
        let count = copy_front(&rest[..offered], buf);
        self.at += count;
        Ok(count)
    }
}
