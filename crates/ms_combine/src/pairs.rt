//! Pairs at their places in bytes that hold several PSBTs, one after the other.

ghost use Rattle.std.specs.Prelude.{◌≡◌, drop};
ghost use Rattle.ms_psbt.specs.Pairs.{first_pair as the_first_pair};
ghost use Rattle.ms_psbt.specs.Seen.{IsPart};
ghost use Rattle.ms_combine.specs.Scaffolding.Places.{key_at as the_key_at, pair_text_at, next_at};

use ms_psbt::first_string;

/// What stands from a place on; nothing behind the last byte.
pub fn tail(bytes: &[u8], place: usize) -> &[u8]
    ensures { result.now ≡ drop place bytes.now }
{
    if place <= bytes.len() {
        &bytes[place..]
    } else {
        &[]
    }
}

/// The key and the value at the front, and what stands behind them; none where a map ends.
#[tactic(auto, unfolding(ms_psbt::specs::Pairs::first_pair))]
pub fn first_pair(bytes: &[u8]) -> Option<(&[u8], &[u8], &[u8])>
    ensures { IsPart (λ part. (record { key = part.0.now; value = part.1.now }, part.2.now)) result (the_first_pair bytes.now) }
{
    let (key, behind) = first_string(bytes)?;
    if key.is_empty() {
        return None;
    }
    let (value, rest) = first_string(behind)?;
    Some((key, value, rest))
}

/// The key at a place; no byte where a map ends there.
pub fn key_at(bytes: &[u8], place: usize) -> &[u8]
    ensures { result.now ≡ the_key_at bytes.now place }
{
    match first_pair(tail(bytes, place)) {
        Some((key, _, _)) => key,
        None => &[],
    }
}

/// The bytes of the pair at a place; none where a map ends there.
pub fn pair_at(bytes: &[u8], place: usize) -> &[u8]
    ensures { result.now ≡ pair_text_at bytes.now place }
{
    let here = tail(bytes, place);
    match first_pair(here) {
        Some((_, _, rest)) => &here[..here.len().saturating_sub(rest.len())],
        None => &[],
    }
}

/// The place behind the pair at a place; none where a map ends there.
pub fn next_place(bytes: &[u8], place: usize) -> Option<usize>
    ensures { result ≡ next_at bytes.now place }
{
    match first_pair(tail(bytes, place)) {
        Some((_, _, rest)) => Some(bytes.len().saturating_sub(rest.len())),
        None => None,
    }
}
