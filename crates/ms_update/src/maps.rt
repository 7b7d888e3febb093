//! Maps in the bytes of a PSBT: what bars the pairs that belong to one, and the map with them behind its own.

ghost use Rattle.std.specs.Prelude.{◌≡◌, ◌&&◌, not, ◌+◌, ◌^◌, ◌<◌, ◌≤◌, ◌++◌, length, drop, map, filter, flat_map, OnOk};
ghost use Rattle.std.specs.Str.{bytes_eq};
ghost use Rattle.def_script.specs.Witness.{sized};
ghost use Rattle.def_psbt.specs.Listed.{stands as the_stands};
ghost use Rattle.def_psbt.specs.Map.{pair_text, map_text};
ghost use Rattle.def_combine.specs.Joined.{is_new, joined_map};
ghost use Rattle.def_update.specs.Updated.{conflicts, conflict_in as the_conflict_in};
ghost use Rattle.ms_psbt.specs.Pairs.{first_pair as the_first_pair, pairs_in};
ghost use Rattle.ms_psbt.specs.Seen.{IsPart};
ghost use Rattle.ms_update.specs.Seen.{pair_at};
ghost use Rattle.ms_psbt.specs.Scaffolding.Pairs.{IsMapText};
ghost use Rattle.ms_update.specs.Scaffolding.Fronts.{BeginsWithMap};

use crate::pairs::OwnPair;
use ms_psbt::first_string;
use ms_script::compact_size;
use std::alloc::AllocError;

/// The key and the value at the front, and what stands behind them; none where a map ends.
#[tactic(auto, unfolding(ms_psbt::specs::Pairs::first_pair))]
fn first_pair(bytes: &[u8]) -> Option<(&[u8], &[u8], &[u8])>
    ensures { IsPart (λ part. (record { key = part.0.now; value = part.1.now }, part.2.now)) result (the_first_pair bytes.now) }
{
    let (key, behind) = first_string(bytes)?;
    if key.is_empty() {
        return None;
    }
    let (value, rest) = first_string(behind)?;
    Some((key, value, rest))
}

/// The bytes of the map at the front, the byte that ends it counted. Takes no memory.
pub fn first_map(bytes: &[u8]) -> &[u8]
    requires { BeginsWithMap bytes.now }
    ensures { result.now ≡ map_text (pairs_in bytes.now) }
{
    let mut rest = bytes;
    'pairs: while let Some((_, _, behind)) = first_pair(rest) {
        rest = behind;
    }
    let size = bytes.len() - rest.len();
    &bytes[..size + 1]
}

/// What stands behind the bytes of a map at the front.
pub fn behind_map<'a>(bytes: &'a [u8], map: &[u8]) -> &'a [u8]
    requires { length map.now ≤ length bytes.now }
    ensures { result.now ≡ drop (length map.now) bytes.entry.now }
{
    &bytes[map.len()..]
}

/// Whether a pair has the key of this one, and another value.
fn is_barred_by(key: &[u8], value: &[u8], own: &OwnPair) -> bool
    ensures { result ≡ (bytes_eq key.now (pair_at own.now).key && not (bytes_eq value.now (pair_at own.now).value)) }
{
    key == own.key.as_slice() && value != own.value.as_slice()
}

/// Whether a pair has the key of one that belongs, and another value.
fn is_barred(key: &[u8], value: &[u8], belonging: &[OwnPair]) -> bool
    ensures { result ≡ conflicts (map pair_at belonging.now) (record { key = key.now; value = value.now }) }
{
    'own: for own in belonging {
        if is_barred_by(key, value, own) {
            return true;
        }
    }
    false
}

/// The place of the first pair of a map, which begins at a place, that has the key of one that belongs and another value.
pub fn conflict_in(bytes: &[u8], at: usize, belonging: &[OwnPair]) -> Option<usize>
    requires room { at + length bytes.now < 2 ^ 64 }
    requires map { IsMapText bytes.now }
    ensures { result ≡ the_conflict_in (map pair_at belonging.now) at (pairs_in bytes.now) }
{
    let mut rest = bytes;
    'pairs: while let Some((key, value, behind)) = first_pair(rest) {
        if is_barred(key, value, belonging) {
            return Some(at + (bytes.len() - rest.len()));
        }
        rest = behind;
    }
    None
}

/// Whether a key stands in a map.
fn stands(key: &[u8], bytes: &[u8]) -> bool
    requires { IsMapText bytes.now }
    ensures { result ≡ the_stands key.now (pairs_in bytes.now) }
{
    let mut rest = bytes;
    'pairs: while let Some((other, _, behind)) = first_pair(rest) {
        if key == other {
            return true;
        }
        rest = behind;
    }
    false
}

/// Adds a string behind its size.
fn push_sized(out: &mut Vec<u8>, bytes: &[u8]) -> Result<(), AllocError>
    ensures { OnOk result (out.new.items ≡ out.old.items ++ sized bytes.now) }
{
    out.extend_from_slice(compact_size(bytes.len() as u64).as_slice())?;
    out.extend_from_slice(bytes)?;
    Ok(())
}

/// Adds a pair.
fn push_pair(out: &mut Vec<u8>, pair: &OwnPair) -> Result<(), AllocError>
    ensures { OnOk result (out.new.items ≡ out.old.items ++ pair_text (pair_at pair.now)) }
{
    push_sized(out, &pair.key)?;
    push_sized(out, &pair.value)
}

/// Adds the pairs whose keys don't stand in a map.
fn push_new(out: &mut Vec<u8>, bytes: &[u8], belonging: &[OwnPair]) -> Result<(), AllocError>
    requires { IsMapText bytes.now }
    ensures { OnOk result (out.new.items ≡ out.old.items ++ flat_map pair_text (filter (is_new (pairs_in bytes.now)) (map pair_at belonging.now))) }
{
    'pairs: for own in belonging {
        if !stands(&own.key, bytes) {
            push_pair(out, own)?;
        }
    }
    Ok(())
}

/// Adds a map, and behind its pairs those that belong to it and whose keys don't stand there. Refuses for want of memory alone.
pub fn push_joined(out: &mut Vec<u8>, bytes: &[u8], belonging: &[OwnPair]) -> Result<(), AllocError>
    requires { IsMapText bytes.now }
    ensures { OnOk result (out.new.items ≡ out.old.items ++ map_text (joined_map (pairs_in bytes.now) (map pair_at belonging.now))) }
{
    out.extend_from_slice(&bytes[..bytes.len() - 1])?;
    push_new(out, bytes, belonging)?;
    out.push(0x00)?;
    Ok(())
}
