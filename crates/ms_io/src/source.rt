//! Sources: what every one of them promises, and reading one to its end.

ghost use Rattle.std.specs.Prelude.{◌≡◌, ◌≢◌, ℕ, ◌^◌, ◌≤◌, List, length, take, IfOk, MatchResult};
ghost use Rattle.std.specs.declared.option.Option.{Option};
ghost use Rattle.std.specs.Io.{ReadsAtMost};
ghost use Rattle.std.specs.Io.KnownBytes.{ReadConsumes};
ghost use Rattle.ms_io.specs.Calls.{GivesToEnd, GivesUntilFault, GivesPast, GivesShort};
ghost use Rattle.ms_io.specs.Faults.{HasCause};
ghost use Rattle.ms_io.specs.Sides.{Rose};
ghost use Rattle.ms_io.specs.Moves.{GivesAll, GivesWithin, GivesOver};

use std::alloc::Global;

/// A read that failed. The source's count of faults rose in that call, or stood at its last value.
#[derive(Clone, Copy, Debug, PartialEq, Eq)]
pub struct SourceFailed;

/// Something that bytes are read from.
pub trait Source {
    // The bytes that are left, where the source tells them.
    ghost left: { Self → Option (List ℕ) };

    // How many reads have failed, up to the last value of the counter, 2^64 - 1.
    ghost faults: { Self → ℕ };

    // What a call with a buffer of so many places may leave, where it gives these bytes, and where it fails.
    ghost gives: { Self → ℕ → List ℕ → Self → Type 0 };

    ghost fails: { Self → ℕ → Self → Type 0 };

    /// Reads into the front of `buf`, and answers how many bytes it gave. 0 for a buffer that isn't
    /// empty is the end of the input. A read that fails has given nothing, and is counted.
    fn read(&mut self, buf: &mut [u8]) -> Result<usize, SourceFailed>
        ensures bound { ReadsAtMost result buf.new }
        ensures bytes { ReadConsumes (left self.old) (left self.new) result buf.new }
        ensures cause { HasCause (faults self.old) (faults self.new) result }
        ensures call { MatchResult result (λ n. gives self.old (length buf.old) (take n buf.new) self.new) (λ _. fails self.old (length buf.old) self.new) };
}

/// Why a source wasn't read to its end.
#[derive(Clone, Copy, Debug, PartialEq, Eq)]
pub enum ReadStop {
    /// A read failed.
    Fault,
    /// More bytes came than the limit.
    TooLong,
    /// There was no memory.
    Memory,
}

/// Reads to the end, and gives all bytes, first one first. `limit` is how many they may be, at most 2^31.
///
/// `Fault` comes where a read failed, and `Memory` where there was none for the bytes. Where it stops before the end,
/// a front of the bytes was read: over `limit` of them exactly where the answer is `TooLong`. Each read but the last one
/// gave at least one byte, so none follows the end, a fault or the read by which the limit is passed.
pub fn read_all<S: Source>(alloc: Global, source: &mut S, limit: usize) -> Result<Vec<u8>, ReadStop>
    requires { limit ≤ 2 ^ 31 }
    ensures all { IfOk result (λ bytes. GivesAll (S.left source.old) (S.left source.new) bytes.items) }
    ensures short { IfOk result (λ bytes. length bytes.items ≤ limit) }
    ensures too_long { result ≡ Err ReadStop.TooLong → GivesOver (S.left source.old) (S.left source.new) limit }
    ensures within { result ≢ Err ReadStop.TooLong → GivesWithin (S.left source.old) (S.left source.new) limit }
    ensures fault { result ≡ Err ReadStop.Fault → Rose (S.faults source.old) (S.faults source.new) }
    ensures later { S.faults source.old ≤ S.faults source.new }
    ensures to_end { IfOk result (λ bytes. GivesToEnd S.gives source.old source.new bytes.items) }
    ensures until_fault { result ≡ Err ReadStop.Fault → GivesUntilFault S.gives S.fails source.old source.new }
    ensures until_limit { result ≡ Err ReadStop.TooLong → GivesPast S.gives source.old source.new limit }
    ensures until_memory { result ≡ Err ReadStop.Memory → GivesShort S.gives source.old source.new limit }
{
    let mut bytes = Vec::new(alloc);
    let mut buf = [0; 4096];
    'reads: loop {
        let Ok(count) = source.read(&mut buf) else {
            return Err(ReadStop::Fault);
        };
        if count == 0 {
            return Ok(bytes);
        }
        if count > limit - bytes.len() {
            return Err(ReadStop::TooLong);
        }
        if bytes.extend_from_slice(&buf[..count]).is_err() {
            return Err(ReadStop::Memory);
        }
    }
}
