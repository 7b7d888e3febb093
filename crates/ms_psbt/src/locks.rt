//! The lock time of a PSBT of version 2 (BIP 370, "Determining Lock Time").

ghost use Rattle.std.specs.Prelude.{◌≡◌, ◌⊎◌, ◌||◌, ◌&&◌, max, ℕ, false, List, Ok};
ghost use Rattle.std.specs.List.{list_any};
ghost use Rattle.def_psbt.specs.Fields.{greatest as the_greatest, lock_time_of, has_lock, has_time_alone, has_height_alone};
ghost use Rattle.def_psbt.specs.Listed.{Form};
ghost use Rattle.def_psbt.specs.Map.{Map};
ghost use Rattle.def_psbt.specs.Reading.{map_at, unserved_at};
ghost use Rattle.ms_psbt.specs.Scaffolding.Locks.{is_meant};
ghost use Rattle.ms_psbt.specs.Scaffolding.Maps.{InputsAt};

use crate::values::{has, number_or, place_in};
use def_psbt::types;

/// Which inputs are meant.
#[derive(Clone, Copy)]
pub enum Lock {
    /// Those with a time alone.
    TimeAlone,
    /// Those with a height alone.
    HeightAlone,
}

/// Whether the input whose map begins at a place is meant. Few have a time or a height, and the map of any other is walked over once.
fn has_lock(lock: Lock, psbt: &[u8], from: usize) -> bool
    ensures { (forms : ℕ → Form) (map : Map × ℕ) → map_at forms psbt.now from ≡ Ok map → result ≡ is_meant lock map.0 }
{
    match place_in(
        psbt,
        from,
        types::IN_REQUIRED_TIME_LOCKTIME,
        types::IN_REQUIRED_HEIGHT_LOCKTIME,
    ) {
        Some(_) => has_such_lock(lock, psbt, from),
        None => false,
    }
}

/// Whether it has a time alone, and whether it has a height alone.
fn locks_alone(psbt: &[u8], from: usize) -> (bool, bool)
    ensures time { (forms : ℕ → Form) (map : Map × ℕ) → map_at forms psbt.now from ≡ Ok map → result.0 ≡ has_time_alone map.0 }
    ensures height { (forms : ℕ → Form) (map : Map × ℕ) → map_at forms psbt.now from ≡ Ok map → result.1 ≡ has_height_alone map.0 }
{
    match place_in(
        psbt,
        from,
        types::IN_REQUIRED_TIME_LOCKTIME,
        types::IN_REQUIRED_HEIGHT_LOCKTIME,
    ) {
        Some(_) => {
            let time = has_such_lock(Lock::TimeAlone, psbt, from);
            let height = has_such_lock(Lock::HeightAlone, psbt, from);
            (time, height)
        }
        None => (false, false),
    }
}

fn has_such_lock(lock: Lock, psbt: &[u8], from: usize) -> bool
    ensures { (forms : ℕ → Form) (map : Map × ℕ) → map_at forms psbt.now from ≡ Ok map → result ≡ is_meant lock map.0 }
{
    let time = has(psbt, from, types::IN_REQUIRED_TIME_LOCKTIME);
    let height = has(psbt, from, types::IN_REQUIRED_HEIGHT_LOCKTIME);
    match lock {
        Lock::TimeAlone => time && !height,
        Lock::HeightAlone => height && !time,
    }
}

/// Whether one of the inputs whose maps begin at these places is meant.
pub fn any_lock(lock: Lock, psbt: &[u8], places: &[u32]) -> bool
    ensures { (at : ℕ) (inputs : List Map) → InputsAt psbt.now at places.now inputs → result ≡ list_any (is_meant lock) inputs }
{
    for place in places {
        if has_lock(lock, psbt, *place as usize) {
            return true;
        }
    }
    false
}

/// The greatest number of a field among the inputs whose maps begin at these places: the times or the heights.
fn greatest(psbt: &[u8], places: &[u32], type_number: u64) -> u32
    requires { (type_number ≡ 0x11) ⊎ (type_number ≡ 0x12) }
    ensures { (at : ℕ) (inputs : List Map) → InputsAt psbt.now at places.now inputs → result ≡ the_greatest type_number inputs }
{
    let mut most = 0;
    for place in places {
        let number = number_or(psbt, *place as usize, type_number, 0);
        most = larger(most, number);
    }
    most
}

/// The larger one of two numbers.
fn larger(first: u32, second: u32) -> u32
    ensures { result ≡ max first second }
{
    if first < second { second } else { first }
}

/// Whether one of both holds.
pub fn either(first: bool, second: bool) -> bool
    ensures { result ≡ (first || second) }
{
    first || second
}

fn both(first: bool, second: bool) -> bool
    ensures { result ≡ (first && second) }
{
    first && second
}

/// The lock time of the inputs whose maps begin at these places, of which it is told whether one has a time or a height.
pub fn lock_time(psbt: &[u8], is_locked: bool, fallback: u32, places: &[u32]) -> u32
    requires { (at : ℕ) (inputs : List Map) → InputsAt psbt.now at places.now inputs → is_locked ≡ list_any has_lock inputs }
    ensures { (at : ℕ) (inputs : List Map) → InputsAt psbt.now at places.now inputs → result ≡ lock_time_of fallback inputs }
{
    if !is_locked {
        fallback
    } else if any_lock(Lock::TimeAlone, psbt, places) {
        greatest(psbt, places, types::IN_REQUIRED_TIME_LOCKTIME)
    } else {
        greatest(psbt, places, types::IN_REQUIRED_HEIGHT_LOCKTIME)
    }
}

/// The place of the first map up to which one input has a time alone and one a height alone. It is told whether one of them all has a time
/// or a height.
pub fn unserved(psbt: &[u8], is_locked: bool, places: &[u32]) -> Option<u32>
    requires { (at : ℕ) (inputs : List Map) → InputsAt psbt.now at places.now inputs → is_locked ≡ list_any has_lock inputs }
    ensures { (at : ℕ) (inputs : List Map) → InputsAt psbt.now at places.now inputs → result ≡ unserved_at false false at inputs }
{
    if !is_locked {
        return None;
    }
    let mut time = false;
    let mut height = false;
    for place in places {
        let alone = locks_alone(psbt, *place as usize);
        time = either(time, alone.0);
        height = either(height, alone.1);
        if both(time, height) {
            return Some(*place);
        }
    }
    None
}
