//! Numbers at the front of bytes, and parts of bytes.

ghost use Rattle.std.specs.Prelude.{◌≡◌, ◌+◌, ◌-◌, ◌≤◌, length, take, drop};
ghost use Rattle.std.specs.Int.{w32, w64};
ghost use Rattle.def_psbt.specs.Part.{first_number};
ghost use Rattle.ms_psbt.specs.Seen.{IsPart};

use ms_psbt::first_bytes;

/// A number of four bytes, low byte first, and the bytes behind it.
#[tactic(auto, unfolding(def_psbt::specs::Part::first_number))]
pub fn first_u32(bytes: &[u8]) -> Option<(u32, &[u8])>
    ensures { IsPart (λ part. (part.0, part.1.now)) result (first_number w32 bytes.now) }
{
    let (number, rest) = first_bytes(4, bytes)?;
    let value = u32::from_le_bytes([number[0], number[1], number[2], number[3]]);
    Some((value, rest))
}

/// A number of eight bytes, low byte first, and the bytes behind it.
#[tactic(auto, unfolding(def_psbt::specs::Part::first_number))]
pub fn first_u64(bytes: &[u8]) -> Option<(u64, &[u8])>
    ensures { IsPart (λ part. (part.0, part.1.now)) result (first_number w64 bytes.now) }
{
    let (number, rest) = first_bytes(8, bytes)?;
    let value = u64::from_le_bytes([
        number[0], number[1], number[2], number[3], number[4], number[5], number[6], number[7],
    ]);
    Some((value, rest))
}

/// The bytes before the rest of them.
pub fn before<'a>(bytes: &'a [u8], rest: &[u8]) -> &'a [u8]
    requires { length rest.now ≤ length bytes.now }
    ensures { result.now ≡ take (length bytes.entry.now - length rest.now) bytes.entry.now }
{
    &bytes[..bytes.len() - rest.len()]
}

/// So many bytes from a place on.
pub fn part(bytes: &[u8], from: usize, size: usize) -> &[u8]
    requires { from + size ≤ length bytes.now }
    ensures { result.now ≡ take size (drop from bytes.now) }
{
    &bytes[from..from + size]
}
