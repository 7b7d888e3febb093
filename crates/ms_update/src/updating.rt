//! A PSBT with what is known of its inputs and outputs.

ghost use Rattle.std.specs.Prelude.{◌≡◌, ◌+◌, ◌^◌, ◌<◌, ◌||◌, [], if◌then◌else◌, length, slice_get, Some, option_map, All, IfOk};
ghost use Rattle.def_psbt.specs.Laws.{IsSound};
ghost use Rattle.def_psbt.specs.Map.{Map, map_text};
ghost use Rattle.def_psbt.specs.Transaction.{TransactionInput};
ghost use Rattle.def_update.specs.Known.{INPUT, OUTPUT, pairs_by, known_by as the_known_by};
ghost use Rattle.def_update.specs.Updated.{behind, known_of_input as the_known_of_input, outputs_pairs};
ghost use Rattle.ms_psbt.specs.Pairs.{pairs_in};
ghost use Rattle.ms_psbt.specs.Scaffolding.Pairs.{IsMapText};
ghost use Rattle.ms_transaction.specs.Unsigned.{IsUnsigned};
ghost use Rattle.ms_update.specs.Seen.{known_at, types_of};
ghost use Rattle.ms_update.specs.declared.updating.UpdateStop.TheVariants as stop;
ghost use Rattle.ms_update.specs.Outcome.{Updates};
ghost use Rattle.ms_update.specs.Scaffolding.Puts.{PutsMap, PutsMaps, PutsInput, PutsInputs};

use crate::inputs::{has_final, spent_script};
use crate::known::{Book, KnownOutput};
use crate::maps::{behind_map, conflict_in, first_map, push_joined};
use crate::pairs::{Owner, belonging};
use ms_psbt::Psbt;
use ms_psbt_write::begin_psbt;
use ms_transaction::{TransactionRef, unsigned_transaction};
use std::alloc::{AllocError, AllocFailed, Global};

/// Why a PSBT isn't updated.
#[derive(Clone, Copy, Debug, PartialEq, Eq)]
pub enum UpdateStop {
    /// The pair at this place has the key of one that belongs to its map, and another value.
    Conflict(usize),
    /// There was no memory.
    Memory,
}

impl From<AllocError> for UpdateStop {
    ghost from_gives = { λ _ why. why ≡ stop.Memory };

    fn from(_error: AllocError) -> UpdateStop {
        UpdateStop::Memory
    }
}

impl<T: Drop> From<AllocFailed<T>> for UpdateStop {
    ghost from_gives = { λ _ why. why ≡ stop.Memory };

    fn from(_error: AllocFailed<T>) -> UpdateStop {
        UpdateStop::Memory
    }
}

/// A PSBT with what belongs to its maps.
#[derive(Debug, Drop)]
pub struct Updated {
    /// Its bytes.
    pub psbt: Vec<u8>,
    /// Whether something is known of one of its inputs.
    pub has_known_input: bool,
}

/// Adds a map that begins at a place, with what belongs to it.
fn push_map(
    alloc: Global,
    out: &mut Vec<u8>,
    at: usize,
    map: &[u8],
    owner: Owner,
    known: &Option<KnownOutput>,
) -> Result<(), UpdateStop>
    requires room { at + length map.now < 2 ^ 64 }
    requires map { IsMapText map.now }
    ensures { PutsMap (pairs_by (types_of owner) (option_map known_at known.now)) at (pairs_in map.now) out.old.items out.new.items result }
{
    let Some(known) = known else {
        out.extend_from_slice(map)?;
        return Ok(());
    };
    let pairs = belonging(alloc, owner, known)?;
    if let Some(place) = conflict_in(map, at, &pairs) {
        return Err(UpdateStop::Conflict(place));
    }
    push_joined(out, map, &pairs)?;
    Ok(())
}

/// What is known of the output that an input spends.
fn known_of_input<K: Book>(
    alloc: Global,
    psbt: &Psbt<'_>,
    transaction: &TransactionRef<'_>,
    number: usize,
    known: &K,
) -> Result<Option<KnownOutput>, AllocError>
    requires book { K.is_open known.now }
    requires unsigned { All IsUnsigned transaction.now.inputs }
    requires input { number < length transaction.now.inputs }
    requires map { number < length psbt.now.inputs }
    ensures { (input : TransactionInput) (fields : Map) → slice_get transaction.now.inputs number ≡ Some input → slice_get psbt.now.inputs number ≡ Some fields
        → IfOk result (λ found. option_map known_at found ≡ the_known_of_input (K.known known.now) input fields) }
{
    let input = transaction.input(number);
    match spent_script(&input, psbt.input_map(number), psbt.input_map(number)) {
        Some(script) => known.known_by(alloc, script),
        None => Ok(None),
    }
}

/// What belongs to the map of an input: nothing once it has final fields.
fn unless_final(is_final: bool, found: Option<KnownOutput>) -> Option<KnownOutput>
    ensures { pairs_by INPUT (option_map known_at result) ≡ if is_final then [] else pairs_by INPUT (option_map known_at found) }
{
    if is_final { None } else { found }
}

/// Adds the map of an input that begins at a place, and gives whether something is known of it.
fn push_input<K: Book>(
    alloc: Global,
    out: &mut Vec<u8>,
    at: usize,
    psbt: &Psbt<'_>,
    transaction: &TransactionRef<'_>,
    number: usize,
    known: &K,
) -> Result<bool, UpdateStop>
    requires book { K.is_open known.now }
    requires unsigned { All IsUnsigned transaction.now.inputs }
    requires input { number < length transaction.now.inputs }
    requires map { number < length psbt.now.inputs }
    requires room { (fields : Map) → slice_get psbt.now.inputs number ≡ Some fields → at + length (map_text fields) < 2 ^ 64 }
    ensures { (input : TransactionInput) (fields : Map) → slice_get transaction.now.inputs number ≡ Some input → slice_get psbt.now.inputs number ≡ Some fields
        → PutsInput (K.known known.now) input fields at out.old.items out.new.items result }
{
    let found = known_of_input(alloc, psbt, transaction, number, known)?;
    let is_known = found.is_some();
    let is_final = has_final(psbt.input_map(number), psbt.input_map(number));
    let own = unless_final(is_final, found);
    let map = psbt.input_map(number);
    match push_map(alloc, out, at, map.bytes(), Owner::Input, &own) {
        Ok(()) => Ok(is_known),
        Err(why) => Err(why),
    }
}

/// Adds the maps of inputs, and gives whether something is known of one.
fn push_inputs<K: Book>(
    alloc: Global,
    out: &mut Vec<u8>,
    psbt: &Psbt<'_>,
    transaction: &TransactionRef<'_>,
    known: &K,
) -> Result<bool, UpdateStop>
    requires book { K.is_open known.now }
    requires unsigned { All IsUnsigned transaction.now.inputs }
    requires same { transaction.now ≡ psbt.now.transaction }
    ensures { PutsInputs (K.known known.now) transaction.now.inputs psbt.now.inputs (5 + length (map_text psbt.now.global)) out.old.items out.new.items result }
{
    // Each place is within the bytes.
    let _size = psbt.bytes().len();
    let mut at = psbt.before_inputs().len();
    let mut has_known = false;
    'inputs: for number in 0..psbt.input_count() {
        let is_known = match push_input(alloc, out, at, psbt, transaction, number, known) {
            Ok(is_known) => is_known,
            Err(why) => return Err(why),
        };
        has_known = either(has_known, is_known);
        at += psbt.input_map(number).bytes().len();
    }
    Ok(has_known)
}

/// Whether one of two holds.
fn either(first: bool, second: bool) -> bool
    ensures { result ≡ (first || second) }
{
    first || second
}

/// Adds the map of an output with a script, which begins at a place.
fn push_output<K: Book>(
    alloc: Global,
    out: &mut Vec<u8>,
    at: usize,
    map: &[u8],
    script: &[u8],
    known: &K,
) -> Result<(), UpdateStop>
    requires book { K.is_open known.now }
    requires room { at + length map.now < 2 ^ 64 }
    requires map { IsMapText map.now }
    ensures { PutsMap (pairs_by OUTPUT (the_known_by (K.known known.now) script.now)) at (pairs_in map.now) out.old.items out.new.items result }
{
    let found = known.known_by(alloc, script)?;
    push_map(alloc, out, at, map, Owner::Output, &found)
}

/// Adds the maps of outputs.
fn push_outputs<K: Book>(
    alloc: Global,
    out: &mut Vec<u8>,
    psbt: &Psbt<'_>,
    transaction: &TransactionRef<'_>,
    known: &K,
) -> Result<(), UpdateStop>
    requires book { K.is_open known.now }
    requires sound { IsSound psbt.now }
    requires same { transaction.now ≡ psbt.now.transaction }
    ensures { PutsMaps (outputs_pairs (K.known known.now) psbt.now) (behind (5 + length (map_text psbt.now.global)) psbt.now.inputs) psbt.now.outputs
        out.old.items out.new.items result }
{
    let mut rest = psbt.after_inputs();
    let mut at = psbt.bytes().len() - rest.len();
    'outputs: for output in transaction.outputs() {
        let map = first_map(rest);
        match push_output(alloc, out, at, map, output.script(), known) {
            Ok(()) => {}
            Err(why) => return Err(why),
        }
        at += map.len();
        rest = behind_map(rest, map);
    }
    Ok(())
}

/// A PSBT with what is known of its inputs and outputs. Behind the pairs of each map of an output of which something is known, and
/// of each map of an input that spends one and has no final fields, stand its redeem script, its witness script and its keys with where they
/// come from, as far as their keys don't stand there (BIP 174, "Updater"). All other bytes stay as they are.
///
/// It demands a PSBT with nothing wrong, as `read_psbt` gives. `Conflict` comes with the place of the first pair that has the key of such
/// a pair and another value. Only `Memory` may come in place of any answer.
pub fn update<K: Book>(alloc: Global, psbt: &Psbt<'_>, known: &K) -> Result<Updated, UpdateStop>
    requires book { K.is_open known.now }
    requires sound { IsSound psbt.now }
    ensures { Updates (K.known known.now) psbt.now result }
{
    let transaction = unsigned_transaction(psbt);
    let mut out = begin_psbt(alloc, psbt)?;
    let has_known_input = match push_inputs(alloc, &mut out, psbt, &transaction, known) {
        Ok(has_known_input) => has_known_input,
        Err(why) => return Err(why),
    };
    match push_outputs(alloc, &mut out, psbt, &transaction, known) {
        Ok(()) => Ok(Updated {
            psbt: out,
            has_known_input,
        }),
        Err(why) => Err(why),
    }
}
