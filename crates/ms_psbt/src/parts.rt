//! Parts at the front of bytes, and the bytes behind them.

ghost use Rattle.std.specs.Prelude.{◌≡◌, length, IfSome};
ghost use Rattle.def_psbt.specs.Part.{first_bytes as the_first_bytes, first_size as the_first_size, first_string as the_first_string};
ghost use Rattle.ms_psbt.specs.Seen.{IsPart};

use ms_script::read_size;

/// So many bytes, and the bytes behind them.
#[tactic(auto, unfolding(def_psbt::specs::Part::first_bytes))]
pub fn first_bytes(count: u64, bytes: &[u8]) -> Option<(&[u8], &[u8])>
    ensures part { IsPart (λ part. (part.0.now, part.1.now)) result (the_first_bytes count bytes.now) }
    ensures long { IfSome result (λ part. length part.0.now ≡ count) }
{
    if count <= bytes.len() as u64 {
        Some(bytes.split_at(count as usize))
    } else {
        None
    }
}

/// A CompactSize, and the bytes behind it. Nearly all are of one byte.
#[inline(always)]
#[tactic(auto, unfolding(def_psbt::specs::Part::first_size, def_script::specs::Sizes::read_size))]
pub fn first_size(bytes: &[u8]) -> Option<(u64, &[u8])>
    ensures { IsPart (λ part. (part.0, part.1.now)) result (the_first_size bytes.now) }
{
    match bytes {
        [size @ 0..=0xfc, rest @ ..] => Some((*size as u64, rest)),
        _ => first_wide_size(bytes),
    }
}

#[tactic(auto, unfolding(def_psbt::specs::Part::first_size))]
fn first_wide_size(bytes: &[u8]) -> Option<(u64, &[u8])>
    ensures { IsPart (λ part. (part.0, part.1.now)) result (the_first_size bytes.now) }
{
    match read_size(bytes, 0) {
        Ok((size, next)) => Some((size, &bytes[next..])),
        Err(_) => None,
    }
}

/// A string behind its size, and the bytes behind it.
#[tactic(auto, unfolding(def_psbt::specs::Part::first_string))]
pub fn first_string(bytes: &[u8]) -> Option<(&[u8], &[u8])>
    ensures { IsPart (λ part. (part.0.now, part.1.now)) result (the_first_string bytes.now) }
{
    let (size, rest) = first_size(bytes)?;
    first_bytes(size, rest)
}
