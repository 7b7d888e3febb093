//! The version of a PSBT.

ghost use Rattle.std.specs.Prelude.{◌≡◌, ◌++◌, [], length};
ghost use Rattle.std.specs.Int.{w32, from_le_bytes};
ghost use Rattle.def_psbt.specs.Fields.{version_number};
ghost use Rattle.def_psbt.specs.Laws.{IsSoundMap};
ghost use Rattle.def_psbt.specs.Listed.{global_form};
ghost use Rattle.def_psbt.specs.Map.{Map, magic, map_text, type_of};

use crate::pairs::{first_pair, tail};
use def_psbt::types;
use ms_psbt::first_size;

/// The version that a global map behind the magic tells: the number of its pair fb, and 0 without it.
pub fn version_in(before_inputs: &[u8]) -> u32
    ensures { (global : Map) → before_inputs.now ≡ magic ++ map_text global → IsSoundMap global_form [] global → result ≡ version_number global }
{
    let mut left = tail(before_inputs, 5);
    'pairs: while let Some((key, value, rest)) = first_pair(left) {
        if key_type(key) == types::GLOBAL_VERSION {
            return number_in(value);
        }
        left = rest;
    }
    0
}

/// The type of a key; 0 where it is cut or not in its shortest spelling.
#[tactic(auto, unfolding(def_psbt::specs::Part::first_size))]
fn key_type(key: &[u8]) -> u64
    ensures { result ≡ type_of key.now }
{
    match first_size(key) {
        Some((number, _)) => number,
        None => 0,
    }
}

/// The number that four bytes are, low byte first; 0 where there aren't four.
fn number_in(value: &[u8]) -> u32
    ensures { length value.now ≡ 4 → result ≡ from_le_bytes w32 value.now }
{
    match *value {
        [a, b, c, d] => u32::from_le_bytes([a, b, c, d]),
        _ => 0,
    }
}
