//! Copying bytes, numbers or steps into a buffer that may be too small for them.
ghost use Rattle.std.specs.Prelude.{◌≡◌, min, length, take};
ghost use Rattle.ms_calls.specs.Buffers.{written_over};

use crate::outcome::PlacedStep;

/// Writes as many of the bytes as the buffer has room for over its beginning, and answers how many these are.
pub fn write_over(bytes: &[u8], buffer: &mut [u8]) -> usize
    ensures written { buffer.new ≡ written_over buffer.old bytes.now }
    ensures count { result ≡ min (length buffer.old) (length bytes.now) }
    ensures front { take result buffer.new ≡ take result bytes.now }
{
    let count = bytes.len().min(buffer.len());
    buffer[..count].copy_from_slice(&bytes[..count]);
    count
}

/// Writes as many of the lengths as the buffer has room for over its beginning, and answers how many these are.
pub fn write_lengths(lengths: &[usize], buffer: &mut [usize]) -> usize
    ensures written { buffer.new ≡ written_over buffer.old lengths.now }
    ensures count { result ≡ min (length buffer.old) (length lengths.now) }
{
    let room = buffer.len().min(lengths.len());
    buffer[..room].copy_from_slice(&lengths[..room]);
    room
}

/// Writes as many of the steps as the buffer has room for over its beginning, and answers how many these are.
pub fn write_steps(steps: &[PlacedStep], buffer: &mut [PlacedStep]) -> usize
    ensures written { buffer.new ≡ written_over buffer.old steps.now }
    ensures count { result ≡ min (length buffer.old) (length steps.now) }
{
    let room = buffer.len().min(steps.len());
    buffer[..room].copy_from_slice(&steps[..room]);
    room
}
