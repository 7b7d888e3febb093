//! Values of fields, by their types, in maps that were read.

ghost use Rattle.std.specs.Prelude.{◌≡◌, ◌==◌, ◌&&◌, ◌||◌, nat_le, ℕ, [], ◌∷◌, length, is_some, Option, unwrap_or, Some, Ok};
ghost use Rattle.std.specs.Int.{w32, w64, from_le_bytes};
ghost use Rattle.def_script.specs.Bytes.{Bytes};
ghost use Rattle.def_psbt.specs.Fields.{size_read, number_or as the_number_or};
ghost use Rattle.def_psbt.specs.Listed.{Form};
ghost use Rattle.def_psbt.specs.Map.{Map, pair_of_type, value_of_type, has_types};
ghost use Rattle.def_psbt.specs.Part.{first_size as the_first_size};
ghost use Rattle.def_psbt.specs.Reading.{map_at, place_of};
ghost use Rattle.ms_psbt.specs.Seen.{IsPart};

use crate::pairs::{pair_at, size_at};
use crate::parts::first_size;

/// The value of the first pair of a type in the map that begins at a place and is whole.
pub fn value_in(psbt: &[u8], from: usize, type_number: u64) -> Option<&[u8]>
    ensures { (forms : ℕ → Form) (map : Map × ℕ) → map_at forms psbt.now from ≡ Ok map → IsPart (λ value. value.now) result (value_of_type type_number map.0) }
{
    if from > psbt.len() {
        return None;
    }
    let mut at = from;
    loop {
        let Ok((size, _)) = size_at(psbt, at) else {
            return None;
        };
        if size == 0 {
            return None;
        }
        let Ok((pair, next)) = pair_at(psbt, at) else {
            return None;
        };
        if pair.key_type() == type_number {
            return Some(pair.value());
        }
        at = next;
    }
}

/// The place of the first pair whose type is between two, which count, in the map that begins at a place and is whole.
pub fn place_in(psbt: &[u8], from: usize, first: u64, last: u64) -> Option<usize>
    ensures { (forms : ℕ → Form) (map : Map × ℕ) → map_at forms psbt.now from ≡ Ok map → result ≡ place_of first last from map.0 }
{
    if from > psbt.len() {
        return None;
    }
    let mut at = from;
    loop {
        let Ok((size, _)) = size_at(psbt, at) else {
            return None;
        };
        if size == 0 {
            return None;
        }
        let Ok((pair, next)) = pair_at(psbt, at) else {
            return None;
        };
        if is_between(pair.key_type(), first, last) {
            return Some(at);
        }
        at = next;
    }
}

/// Whether a number is between two, which count.
#[inline(always)]
pub fn is_between(number: u64, first: u64, last: u64) -> bool
    ensures { result ≡ (nat_le first number && nat_le number last) }
{
    first <= number && number <= last
}

/// Whether a type stands in the map that begins at a place and is whole.
pub fn has(psbt: &[u8], from: usize, type_number: u64) -> bool
    ensures { (forms : ℕ → Form) (map : Map × ℕ) → map_at forms psbt.now from ≡ Ok map → result ≡ is_some (pair_of_type type_number map.0) }
{
    match value_in(psbt, from, type_number) {
        Some(_) => true,
        None => false,
    }
}

/// Whether both types stand in the map that begins at a place and is whole, by one walk over it.
pub fn has_both(psbt: &[u8], from: usize, first: u64, second: u64) -> bool
    ensures { (forms : ℕ → Form) (map : Map × ℕ) → map_at forms psbt.now from ≡ Ok map → result ≡ has_types (first ∷ second ∷ []) map.0 }
{
    if from > psbt.len() {
        return false;
    }
    let mut has_first = false;
    let mut has_second = false;
    let mut at = from;
    loop {
        let Ok((size, _)) = size_at(psbt, at) else {
            return false;
        };
        if size == 0 {
            return both(has_first, has_second);
        }
        let Ok((pair, next)) = pair_at(psbt, at) else {
            return false;
        };
        let key_type = pair.key_type();
        has_first = is_either(has_first, key_type, first);
        has_second = is_either(has_second, key_type, second);
        at = next;
    }
}

/// Whether something holds, or a number is this one.
#[inline(always)]
fn is_either(holds: bool, number: u64, this: u64) -> bool
    ensures { result ≡ (holds || number == this) }
{
    holds | (number == this)
}

fn both(first: bool, second: bool) -> bool
    ensures { result ≡ (first && second) }
{
    first && second
}

/// The value of the first pair of a type in the map that begins at a place and is whole, or these bytes where there is none.
pub fn value_or<'a>(psbt: &'a [u8], from: usize, type_number: u64, none: &'a [u8]) -> &'a [u8]
    ensures { (forms : ℕ → Form) (map : Map × ℕ) → map_at forms psbt.now from ≡ Ok map → result.now ≡ unwrap_or (value_of_type type_number map.0) none.now }
{
    bytes_or(value_in(psbt, from, type_number), none)
}

/// The bytes of a value, or these where there is none.
pub fn bytes_or<'a>(value: Option<&'a [u8]>, none: &'a [u8]) -> &'a [u8]
    ensures { (reading : Option Bytes) → IsPart (λ value. value.now) value.entry reading → result.now ≡ unwrap_or reading none.now }
{
    match value {
        Some(value) => value,
        None => none,
    }
}

/// The number of four bytes of a field of the map that begins at a place and is whole, or this one where it isn't there.
pub fn number_or(psbt: &[u8], from: usize, type_number: u64, none: u32) -> u32
    ensures { (forms : ℕ → Form) (map : Map × ℕ) → map_at forms psbt.now from ≡ Ok map
        → ((value : Bytes) → value_of_type type_number map.0 ≡ Some value → length value ≡ 4) → result ≡ the_number_or none (value_of_type type_number map.0) }
{
    number_by(value_in(psbt, from, type_number), none)
}

/// The number of four bytes of a value, or this one where there is none.
pub fn number_by(value: Option<&[u8]>, none: u32) -> u32
    ensures { (reading : Option Bytes) → IsPart (λ value. value.now) value.entry reading → ((bytes : Bytes) → reading ≡ Some bytes → length bytes ≡ 4)
        → result ≡ the_number_or none reading }
{
    match value {
        Some(value) => number_of(value),
        None => none,
    }
}

/// The number of eight bytes of a field of the map that begins at a place and is whole; 0 where it isn't there.
pub fn amount_in(psbt: &[u8], from: usize, type_number: u64) -> u64
    ensures { (forms : ℕ → Form) (map : Map × ℕ) (value : Bytes) → map_at forms psbt.now from ≡ Ok map → value_of_type type_number map.0 ≡ Some value → length value ≡ 8
        → result ≡ from_le_bytes w64 value }
{
    match value_in(psbt, from, type_number) {
        Some(value) => amount_of(value),
        None => 0,
    }
}

/// A number of eight bytes, low byte first.
fn amount_of(value: &[u8]) -> u64
    ensures { length value.now ≡ 8 → result ≡ from_le_bytes w64 value.now }
{
    match *value {
        [a, b, c, d, e, f, g, h] => u64::from_le_bytes([a, b, c, d, e, f, g, h]),
        _ => 0,
    }
}

/// A number of four bytes, low byte first.
fn number_of(value: &[u8]) -> u32
    ensures { length value.now ≡ 4 → result ≡ from_le_bytes w32 value.now }
{
    match *value {
        [a, b, c, d] => u32::from_le_bytes([a, b, c, d]),
        _ => 0,
    }
}

/// The size that a value begins with.
pub fn size_of(value: &[u8]) -> u64
    ensures { result ≡ size_read (the_first_size value.now) }
{
    match first_size(value) {
        Some((size, _)) => size,
        None => 0,
    }
}
