//! A sink that keeps all that it is given.
ghost use Rattle.std.specs.Prelude.{◌≡◌, ◌<◌, [], length, ⊤, Some, IfOk, MatchResult};
ghost use Rattle.std.specs.Io.{WritesAtMost};
ghost use Rattle.std.specs.Io.KnownBytes.{WriteAppends};
ghost use Rattle.ms_io.specs.Faults.{HasCause};

use ms_io::{Sink, SinkFailed};
use std::alloc::Global;
use std::marker::Model;

/// A sink that keeps what it is given, and fails only where memory is wanting. Contracts see it as the bytes and a count of
/// the failures.
#[derive(Drop)]
pub struct ByteSink {
    /// What it was given.
    pub bytes: Vec<u8>,
    /// How often memory was wanting.
    pub failures: u64,
}

impl ByteSink {
    /// An empty sink. Takes no memory.
    pub fn new(alloc: Global) -> ByteSink
        ensures bytes { result.bytes.items ≡ [] }
        ensures failures { result.failures ≡ 0 }
    {
        ByteSink {
            bytes: Vec::new(alloc),
            failures: 0,
        }
    }
}

impl Sink for ByteSink {
    ghost written = { λ s. Some s.bytes.items };

    ghost faults = { λ s. s.failures };

    ghost takes = { λ _ piece count _. count ≡ length piece };

    ghost fails = { λ _ _ _. ⊤ };

    /// Takes all of the piece, unless there is no memory for it.
    fn put(&mut self, piece: &[u8]) -> Result<usize, SinkFailed>
        ensures bound { WritesAtMost result piece.now }
        ensures progress { 0 < length piece.now → IfOk result (λ n. 0 < n) }
        ensures bytes { WriteAppends (Some self.old.bytes.items) (Some self.new.bytes.items) result piece.now }
        ensures cause { HasCause self.old.failures self.new.failures result }
        ensures call { MatchResult result (λ n. n ≡ length piece.now) (λ _. ⊤) }
    {
        if self.bytes.extend_from_slice(piece).is_err() {
            self.failures = self.failures.saturating_add(1);
            return Err(SinkFailed);
        }
        Ok(piece.len())
    }
}
