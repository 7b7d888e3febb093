//! What the map of an input of version 2 says of the transaction (BIP 370).

ghost use Rattle.std.specs.Prelude.{◌≡◌, ◌==◌, ◌||◌, ℕ, Option, Some, None, false, Ok, if◌then◌else◌};
ghost use Rattle.def_script.specs.Bytes.{Bytes};
ghost use Rattle.def_psbt.specs.Listed.{Form};
ghost use Rattle.def_psbt.specs.Map.{Map};
ghost use Rattle.def_psbt.specs.Reading.{map_at};
ghost use Rattle.ms_psbt.specs.Scaffolding.Found.{found_before};
ghost use Rattle.ms_psbt.specs.Scaffolding.Inputs.{AreFieldsOf};

use crate::pairs::{pair_at, size_at};
use crate::values::is_between;
use def_psbt::types;

/// What an input's map says of the transaction.
#[derive(Clone, Copy)]
pub struct InputFields<'a> {
    /// The id of the transaction whose output is spent.
    pub id: Option<&'a [u8]>,
    /// The index of that output.
    pub index: Option<&'a [u8]>,
    /// The sequence number.
    pub sequence: Option<&'a [u8]>,
    /// Whether there is a time or a height that the lock time has to reach.
    pub is_locked: bool,
}

impl<'a> InputFields<'a> {
    /// Those of a map without pairs.
    fn none() -> InputFields<'a>
        ensures { result ≡ record { id = None; index = None; sequence = None; is_locked = false } }
    {
        InputFields {
            id: None,
            index: None,
            sequence: None,
            is_locked: false,
        }
    }
}

/// The value that was found before, or this one where it is one.
fn found_or<'a>(found: Option<&'a [u8]>, is_one: bool, value: &'a [u8]) -> Option<&'a [u8]>
    ensures { (later : Option Bytes) → found_before result later ≡ found_before found.entry (if is_one then Some value.entry.now else later) }
{
    match found {
        Some(before) => Some(before),
        None if is_one => Some(value),
        None => None,
    }
}

/// What the map that begins at a place and is whole says of the transaction, by one walk over it. Few of its pairs do.
pub fn input_fields(psbt: &[u8], from: usize) -> InputFields<'_>
    ensures { (forms : ℕ → Form) (map : Map × ℕ) → map_at forms psbt.now from ≡ Ok map → AreFieldsOf result map.0 }
{
    if from > psbt.len() {
        return InputFields::none();
    }
    let mut id = None;
    let mut index = None;
    let mut sequence = None;
    let mut is_locked = false;
    let mut at = from;
    loop {
        let Ok((size, _)) = size_at(psbt, at) else {
            return InputFields::none();
        };
        if size == 0 {
            return InputFields {
                id,
                index,
                sequence,
                is_locked,
            };
        }
        let Ok((pair, next)) = pair_at(psbt, at) else {
            return InputFields::none();
        };
        let key_type = pair.key_type();
        if is_between(
            key_type,
            types::IN_PREVIOUS_TXID,
            types::IN_REQUIRED_HEIGHT_LOCKTIME,
        ) {
            let value = pair.value();
            id = found_or(id, key_type == types::IN_PREVIOUS_TXID, value);
            index = found_or(index, key_type == types::IN_OUTPUT_INDEX, value);
            sequence = found_or(sequence, key_type == types::IN_SEQUENCE, value);
            is_locked = is_lock(is_locked, key_type);
        }
        at = next;
    }
}

/// Whether there was a time or a height before, or a pair of this type has one.
fn is_lock(was_before: bool, key_type: u64) -> bool
    ensures { result ≡ (was_before || (key_type == 0x11 || key_type == 0x12)) }
{
    was_before
        || key_type == types::IN_REQUIRED_TIME_LOCKTIME
        || key_type == types::IN_REQUIRED_HEIGHT_LOCKTIME
}
