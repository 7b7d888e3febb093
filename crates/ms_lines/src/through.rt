//! Writing through a buffer, so that many answers are one write.
ghost use Rattle.std.specs.Prelude.{◌≡◌, ◌++◌, [], OnOk, if◌then◌else◌};
ghost use Rattle.ms_io.specs.Sides.{side};
ghost use Rattle.ms_lines.specs.Through.{PassesOrFails};

use ms_io::{Sink, SinkFailed, put_all};

/// From how many bytes on a buffer takes no more, and more bytes than these are not held.
const MOST_HELD: usize = 65_536;

/// Holds the bytes behind those that are held, or writes all of them. Where no memory is left for them, it writes them too.
#[inline(always)]
pub fn put<K: Sink>(sink: &mut K, held: &mut Vec<u8>, bytes: &[u8]) -> Result<(), SinkFailed>
    ensures { PassesOrFails (side K.written K.faults sink.old sink.new) held.old.items held.new.items bytes.now result }
{
    if hold(held, bytes) {
        return Ok(());
    }
    write_behind(sink, held, bytes)
}

/// Writes all that is held, and then the bytes.
#[cold]
#[inline(never)]
fn write_behind<K: Sink>(sink: &mut K, held: &mut Vec<u8>, bytes: &[u8]) -> Result<(), SinkFailed>
    ensures { PassesOrFails (side K.written K.faults sink.old sink.new) held.old.items held.new.items bytes.now result }
{
    flush(sink, held)?;
    put_all(sink, bytes)
}

/// Holds the bytes behind those that are held, where there is room and memory for them. Answers whether it does.
#[inline(always)]
fn hold(held: &mut Vec<u8>, bytes: &[u8]) -> bool
    ensures { held.new.items ≡ (if result then held.old.items ++ bytes.now else held.old.items) }
{
    if held.len() >= MOST_HELD || bytes.len() >= MOST_HELD {
        return false;
    }
    held.extend_from_slice(bytes).is_ok()
}

/// Writes all that is held.
pub fn flush<K: Sink>(sink: &mut K, held: &mut Vec<u8>) -> Result<(), SinkFailed>
    ensures passes { PassesOrFails (side K.written K.faults sink.old sink.new) held.old.items held.new.items [] result }
    ensures all { OnOk result (held.new.items ≡ []) }
{
    let written = put_all(sink, held);
    held.clear();
    written
}

/// Two pieces, one after the other.
pub fn put_two<K: Sink>(
    sink: &mut K,
    held: &mut Vec<u8>,
    first: &[u8],
    second: &[u8],
) -> Result<(), SinkFailed>
    ensures { PassesOrFails (side K.written K.faults sink.old sink.new) held.old.items held.new.items (first.now ++ second.now) result }
{
    put(sink, held, first)?;
    put(sink, held, second)
}

/// Three pieces, one after the other.
pub fn put_three<K: Sink>(
    sink: &mut K,
    held: &mut Vec<u8>,
    first: &[u8],
    second: &[u8],
    third: &[u8],
) -> Result<(), SinkFailed>
    ensures { PassesOrFails (side K.written K.faults sink.old sink.new) held.old.items held.new.items (first.now ++ second.now ++ third.now) result }
{
    put(sink, held, first)?;
    put(sink, held, second)?;
    put(sink, held, third)
}
