//! CompactSize numbers, which stand before the items of a witness: their spelling and their reading.

ghost use Rattle.std.specs.Prelude.{◌≡◌, ℕ, ◌≤◌, nat_lt, List, ◌++◌, length, drop, if◌then◌else◌, Ok, Err, IfOk};
ghost use Rattle.def_script.specs.Sizes.{size_bytes, read_size as the_read_size};
ghost use Rattle.ms_script.specs.SizeReads.{size_at, size_seen};

use def_script::SizeFault;
use std::marker::Model;

/// The spelling of a CompactSize. Contracts see it as a list of at most nine bytes.
#[derive(Debug, Drop)]
pub struct SizeBytes {
    bytes: [u8; 9],
    len: usize,
}

impl Model for SizeBytes {
    ghost use Rattle.std.specs.Prelude.{List, ℕ, take, ◌≤◌};

    ghost Value = { List ℕ };

    ghost view = { λ s. take s.len s.bytes };

    ghost invariant = { λ s. s.len ≤ 9 };
}

impl SizeBytes {
    /// The bytes, in the order in which they are written.
    pub fn as_slice(&self) -> &[u8]
        ensures { result.now ≡ self.now }
    {
        &self.bytes[..self.len]
    }
}

/// The shortest spelling of a size (Bitcoin Core: `WriteCompactSize`), which `read_size` gives back whatever follows.
/// Takes no memory and never refuses.
#[tactic(auto, unfolding(def_script::specs::Sizes::size_bytes))]
pub fn compact_size(value: u64) -> SizeBytes
    ensures spelling { result ≡ size_bytes value }
    ensures decoded { (rest : List ℕ) → the_read_size (result ++ rest) ≡ Ok (value, length result) }
{
    let [a, b, c, d, e, f, g, h] = value.to_le_bytes();
    if value < 0xfd {
        SizeBytes {
            bytes: [a, 0, 0, 0, 0, 0, 0, 0, 0],
            len: 1,
        }
    } else if value < 0x1_0000 {
        SizeBytes {
            bytes: [0xfd, a, b, 0, 0, 0, 0, 0, 0],
            len: 3,
        }
    } else if value < 0x1_0000_0000 {
        SizeBytes {
            bytes: [0xfe, a, b, c, d, 0, 0, 0, 0],
            len: 5,
        }
    } else {
        SizeBytes {
            bytes: [0xff, a, b, c, d, e, f, g, h],
            len: 9,
        }
    }
}

/// Reads the size that begins at byte `from`, counted from 0, and answers where what follows it begins (Bitcoin Core:
/// `ReadCompactSize`). It demands that `from` is at most the length. Takes no memory.
///
/// `Truncated` comes exactly where the bytes end inside the size, and `NotShortest` exactly where it is
/// whole and a shorter spelling stands for the same size.
pub fn read_size(bytes: &[u8], from: usize) -> Result<(u64, usize), SizeFault>
    requires { from ≤ length bytes.now }
    ensures { result ≡ size_at from (the_read_size (drop from bytes.now)) }
{
    let size = first_size(&bytes[from..])?;
    Ok((size.value, from + size.taken))
}

/// A size, and how many bytes it takes.
#[derive(Clone, Copy)]
struct Size {
    value: u64,
    taken: usize,
}

/// The size that `bytes` begin with.
#[tactic(auto, unfolding(def_script::specs::Sizes::read_size))]
fn first_size(bytes: &[u8]) -> Result<Size, SizeFault>
    ensures value { size_seen result ≡ the_read_size bytes.now }
    ensures within { IfOk result (λ size. size.taken ≤ length bytes.now) }
{
    match *bytes {
        [] => Err(SizeFault::Truncated),
        [0xfd, a, b, ..] => wide_size(u16::from_le_bytes([a, b]) as u64, 0xfd, 3),
        [0xfe, a, b, c, d, ..] => wide_size(u32::from_le_bytes([a, b, c, d]) as u64, 0x1_0000, 5),
        [0xff, a, b, c, d, e, f, g, h, ..] => wide_size(
            u64::from_le_bytes([a, b, c, d, e, f, g, h]),
            0x1_0000_0000,
            9,
        ),
        [0xfd..=0xff, ..] => Err(SizeFault::Truncated),
        [value, ..] => Ok(Size {
            value: value as u64,
            taken: 1,
        }),
    }
}

/// A size of several bytes, for which a shorter spelling has no room from `least` on.
fn wide_size(value: u64, least: u64, taken: usize) -> Result<Size, SizeFault>
    ensures { size_seen result ≡ (if nat_lt value least then Err SizeFault.NotShortest else Ok (value, taken)) }
{
    if value < least {
        return Err(SizeFault::NotShortest);
    }
    Ok(Size { value, taken })
}
