//! Sinks: what every one of them promises, and writing all of some bytes to one.

ghost use Rattle.std.specs.Prelude.{ℕ, ◌<◌, ◌≤◌, List, [], length, IfOk, OnOk, OnErr, MatchResult};
ghost use Rattle.std.specs.declared.option.Option.{Option};
ghost use Rattle.std.specs.Io.{WritesAtMost};
ghost use Rattle.std.specs.Io.KnownBytes.{Appends, WriteAppends};
ghost use Rattle.ms_io.specs.Faults.{HasCause};
ghost use Rattle.ms_io.specs.Calls.{Offers, OffersUntilFault};
ghost use Rattle.ms_io.specs.Moves.{AppendsPrefix};
ghost use Rattle.ms_io.specs.Endings.{Writes};
ghost use Rattle.ms_io.specs.Sides.{side};

/// A write that failed. The sink's count of faults rose in that call, or stood at its last value.
#[derive(Clone, Copy, Debug, PartialEq, Eq)]
pub struct SinkFailed;

/// Something that bytes are written to.
pub trait Sink {
    // The bytes that were written, where the sink tells them.
    ghost written: { Self → Option (List ℕ) };

    // How many writes have failed, up to the last value of the counter, 2^64 - 1.
    ghost faults: { Self → ℕ };

    // What a call that is offered a piece may leave, where it takes so many bytes, and where it fails.
    ghost takes: { Self → List ℕ → ℕ → Self → Type 0 };

    ghost fails: { Self → List ℕ → Self → Type 0 };

    /// Writes a front of `piece`, and answers how many bytes that is: at least 1 for a piece that isn't
    /// empty. A write that fails has taken nothing, and is counted.
    fn put(&mut self, piece: &[u8]) -> Result<usize, SinkFailed>
        ensures bound { WritesAtMost result piece.now }
        ensures progress { 0 < length piece.now → IfOk result (λ n. 0 < n) }
        ensures bytes { WriteAppends (written self.old) (written self.new) result piece.now }
        ensures cause { HasCause (faults self.old) (faults self.new) result }
        ensures call { MatchResult result (λ n. takes self.old piece.now n self.new) (λ _. fails self.old piece.now self.new) };
}

/// Writes all of `bytes`: each call of `put` is offered all that is left, and none is made where nothing is left.
///
/// Where a call fails, no further one is made, a prefix of `bytes` has been written, and the answer is `SinkFailed`.
/// Takes no memory of its own.
pub fn put_all<K: Sink>(sink: &mut K, bytes: &[u8]) -> Result<(), SinkFailed>
    ensures all { OnOk result (Appends (K.written sink.old) (K.written sink.new) bytes.now) }
    ensures part { OnErr result (AppendsPrefix (K.written sink.old) (K.written sink.new) bytes.now) }
    ensures cause { HasCause (K.faults sink.old) (K.faults sink.new) result }
    ensures offered { OnOk result (Offers K.takes sink.old bytes.now sink.new []) }
    ensures offered_until { OnErr result (OffersUntilFault K.takes K.fails sink.old sink.new bytes.now) }
{
    let mut rest = bytes;
    while !rest.is_empty() {
        let Ok(count) = sink.put(rest) else {
            return Err(SinkFailed);
        };
        rest = &rest[count..];
    }
    Ok(())
}

/// Writes all of a report. The answer is its status, or the one of a fault where a write fails.
pub fn put_report<K: Sink, S: Copy>(sink: &mut K, report: &[u8], status: S, fault: S) -> S
    ensures end { Writes fault status report.now (side K.written K.faults sink.old sink.new) result }
    ensures faults_later { K.faults sink.old ≤ K.faults sink.new }
{
    match put_all(sink, report) {
        Ok(()) => status,
        Err(SinkFailed) => fault,
    }
}
