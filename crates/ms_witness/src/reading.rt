//! Reading a witness from its bytes.

ghost use Rattle.std.specs.Prelude.{◌≡◌, ◌<◌, List, Ok, IfOk};
ghost use Rattle.def_script.specs.Bytes.{Bytes};
ghost use Rattle.def_script.specs.Witness.{witness_text};
ghost use Rattle.ms_witness.specs.Reading.{FitsWitness, first_size as the_first_size, first_count as the_first_count, first_item as the_first_item, first_items, read_witness as the_read_witness};
ghost use Rattle.ms_witness.specs.Answering.{ReadsAs, Gives};

use crate::fault::WitnessFault;
use ms_script::{Blob, MAX_SCRIPT_SIZE, Stack, read_size};
use std::alloc::Global;

/// The greatest number of items, and the greatest length of an item.
const MOST_WITNESS: u64 = MAX_SCRIPT_SIZE as u64;

/// Reads the witness of a P2WSH input (BIP 141): the stack, bottom first, and the Script, which is the last item.
///
/// The first place in the bytes decides why they are refused. Each size is first read, which may be `Truncated` or
/// `NonMinimalSize`; then a count of 0 is `Empty`, and a count or a length over 10,000 is `TooLong`; only then the
/// item is read, which may be `Truncated` too. `Trailing` comes where bytes follow the last item. Only `Memory` may
/// come in place of any answer.
pub fn read_witness(alloc: Global, bytes: &[u8]) -> Result<(Stack, Blob), WitnessFault>
    // What the bytes give, and the first fault.
    ensures reading { Gives result (the_read_witness bytes.now) }
    // What is read is a witness of these bytes.
    ensures spelled { IfOk result (λ read. FitsWitness read.0 read.1 × (bytes.now ≡ witness_text read.0 read.1)) }
    // A witness is read, unless memory is wanting.
    ensures read_back { (stack : List Bytes) (script : Bytes) → FitsWitness stack script → bytes.now ≡ witness_text stack script → Gives result (Ok (stack, script)) }
{
    whole_witness(alloc, bytes)
}

/// What all the bytes give.
#[tactic(auto, unfolding(crate::specs::Reading::read_witness))]
fn whole_witness(alloc: Global, bytes: &[u8]) -> Result<(Stack, Blob), WitnessFault>
    ensures { Gives result (the_read_witness bytes.now) }
{
    let (count, rest) = first_count(bytes)?;
    let (stack, rest) = first_stack(alloc, count - 1, rest)?;
    let (script, rest) = first_item(rest)?;
    if !rest.is_empty() {
        return Err(WitnessFault::Trailing);
    }
    Ok((stack, Blob::from_slice(alloc, script)?))
}

/// The number of items, and the bytes after it.
#[tactic(auto, unfolding(crate::specs::Reading::first_count))]
fn first_count(bytes: &[u8]) -> Result<(u64, &[u8]), WitnessFault>
    ensures count { ReadsAs (λ part. (part.0, part.1.now)) result (the_first_count bytes.now) }
    ensures some { IfOk result (λ part. 0 < part.0) }
{
    let (count, rest) = first_size(bytes)?;
    if count == 0 {
        return Err(WitnessFault::Empty);
    }
    if count > MOST_WITNESS {
        return Err(WitnessFault::TooLong);
    }
    Ok((count, rest))
}

/// So many items, and the bytes after them.
fn first_stack(alloc: Global, count: u64, bytes: &[u8]) -> Result<(Stack, &[u8]), WitnessFault>
    ensures { ReadsAs (λ part. (part.0, part.1.now)) result (first_items count bytes.now) }
{
    let mut stack = Stack::new(alloc);
    let mut rest = bytes;
    for _ in 0..count {
        let (item, after) = first_item(rest)?;
        stack.push(item)?;
        rest = after;
    }
    Ok((stack, rest))
}

/// An item, which stands after its length, and the bytes after it.
#[tactic(auto, unfolding(crate::specs::Reading::first_item))]
fn first_item(bytes: &[u8]) -> Result<(&[u8], &[u8]), WitnessFault>
    ensures { ReadsAs (λ part. (part.0.now, part.1.now)) result (the_first_item bytes.now) }
{
    let (size, rest) = first_size(bytes)?;
    if size > MOST_WITNESS {
        return Err(WitnessFault::TooLong);
    }
    let size = size as usize;
    if rest.len() < size {
        return Err(WitnessFault::Truncated);
    }
    Ok(rest.split_at(size))
}

/// The size that the bytes begin with, and the bytes after it.
fn first_size(bytes: &[u8]) -> Result<(u64, &[u8]), WitnessFault>
    ensures { ReadsAs (λ part. (part.0, part.1.now)) result (the_first_size bytes.now) }
{
    let (size, next) = read_size(bytes, 0)?;
    Ok((size, &bytes[next..]))
}
