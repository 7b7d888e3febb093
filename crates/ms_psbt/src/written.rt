//! The transaction of a PSBT of version 2, written from the fields of its maps (BIP 370).

ghost use Rattle.std.specs.Prelude.{◌≡◌, ℕ, true, List, [], ◌∷◌, ◌++◌, map, IfOk, OnOk, Ok};
ghost use Rattle.std.specs.Int.{w32, w64, to_le_bytes};
ghost use Rattle.def_script.specs.Sizes.{size_bytes};
ghost use Rattle.def_script.specs.Witness.{sized};
ghost use Rattle.def_psbt.specs.declared.PsbtVersion.TheVariants.{Two};
ghost use Rattle.std.specs.List.{list_any};
ghost use Rattle.def_psbt.specs.Fields.{input_of, output_of, transaction_of_fields, has_lock};
ghost use Rattle.def_psbt.specs.Listed.{global_form, input_form, output_form};
ghost use Rattle.def_psbt.specs.Map.{Map, has_types};
ghost use Rattle.def_psbt.specs.Reading.{map_at, needed_input, needed_output};
ghost use Rattle.def_psbt.specs.Transaction.{input_text, output_text, inputs_text, outputs_text, transaction_text};
ghost use Rattle.ms_psbt.specs.Scaffolding.Maps.{InputsAt, OutputsAt};

use crate::inputs::input_fields;
use crate::locks::{either, lock_time};
use crate::outline::GLOBAL_PLACE;
use crate::values::{amount_in, bytes_or, number_by, number_or, value_or};
use def_psbt::types;
use ms_script::compact_size;
use std::alloc::{AllocError, Global};

/// Adds the shortest spelling of a size.
fn push_size(out: &mut Vec<u8>, size: u64) -> Result<(), AllocError>
    ensures { OnOk result (out.new.items ≡ out.old.items ++ size_bytes size) }
{
    out.extend_from_slice(compact_size(size).as_slice())?;
    Ok(())
}

/// Adds a number of four bytes.
fn push_number(out: &mut Vec<u8>, number: u32) -> Result<(), AllocError>
    ensures { OnOk result (out.new.items ≡ out.old.items ++ to_le_bytes w32 number) }
{
    out.extend_from_slice(&number.to_le_bytes())?;
    Ok(())
}

/// Adds a number of eight bytes.
fn push_amount(out: &mut Vec<u8>, amount: u64) -> Result<(), AllocError>
    ensures { OnOk result (out.new.items ≡ out.old.items ++ to_le_bytes w64 amount) }
{
    out.extend_from_slice(&amount.to_le_bytes())?;
    Ok(())
}

/// Adds a string behind its size.
fn push_sized(out: &mut Vec<u8>, bytes: &[u8]) -> Result<(), AllocError>
    ensures { OnOk result (out.new.items ≡ out.old.items ++ sized bytes.now) }
{
    push_size(out, bytes.len() as u64)?;
    out.extend_from_slice(bytes)?;
    Ok(())
}

/// Adds the input whose map begins at a place. It answers whether that input has a time or a height.
fn push_input(out: &mut Vec<u8>, psbt: &[u8], from: usize) -> Result<bool, AllocError>
    ensures text { (map : Map × ℕ) → map_at (input_form Two) psbt.now from ≡ Ok map → has_types (needed_input Two) map.0 ≡ true
        → OnOk result (out.new.items ≡ out.old.items ++ input_text (input_of map.0)) }
    ensures locked { (map : Map × ℕ) → map_at (input_form Two) psbt.now from ≡ Ok map → IfOk result (λ is_locked. is_locked ≡ has_lock map.0) }
{
    let fields = input_fields(psbt, from);
    let id = bytes_or(fields.id, &[]);
    let index = number_by(fields.index, 0);
    let sequence = number_by(fields.sequence, 0xffff_ffff);
    out.extend_from_slice(id)?;
    push_number(out, index)?;
    out.push(0x00)?;
    push_number(out, sequence)?;
    Ok(fields.is_locked)
}

/// Adds the inputs whose maps begin at these places, behind their number. It answers whether one of them has a time or a height.
fn push_inputs(out: &mut Vec<u8>, psbt: &[u8], places: &[u32]) -> Result<bool, AllocError>
    ensures text { (at : ℕ) (inputs : List Map) → InputsAt psbt.now at places.now inputs → OnOk result (out.new.items ≡ out.old.items ++ inputs_text (map input_of inputs)) }
    ensures locked { (at : ℕ) (inputs : List Map) → InputsAt psbt.now at places.now inputs → IfOk result (λ is_locked. is_locked ≡ list_any has_lock inputs) }
{
    push_size(out, places.len() as u64)?;
    let mut is_locked = false;
    for place in places {
        let is_one = push_input(out, psbt, *place as usize)?;
        is_locked = either(is_locked, is_one);
    }
    Ok(is_locked)
}

/// Adds the output whose map begins at a place.
fn push_output(out: &mut Vec<u8>, psbt: &[u8], from: usize) -> Result<(), AllocError>
    ensures { (map : Map × ℕ) → map_at (output_form Two) psbt.now from ≡ Ok map → has_types (needed_output Two) map.0 ≡ true
        → OnOk result (out.new.items ≡ out.old.items ++ output_text (output_of map.0)) }
{
    let amount = amount_in(psbt, from, types::OUT_AMOUNT);
    let script = value_or(psbt, from, types::OUT_SCRIPT, &[]);
    push_amount(out, amount)?;
    push_sized(out, script)?;
    Ok(())
}

/// Adds the outputs whose maps begin at these places, behind their number.
fn push_outputs(out: &mut Vec<u8>, psbt: &[u8], places: &[u32]) -> Result<(), AllocError>
    ensures { (at : ℕ) (outputs : List Map) → OutputsAt psbt.now at places.now outputs → OnOk result (out.new.items ≡ out.old.items ++ outputs_text (map output_of outputs)) }
{
    push_size(out, places.len() as u64)?;
    for place in places {
        push_output(out, psbt, *place as usize)?;
    }
    Ok(())
}

/// A transaction that was written.
#[derive(Drop)]
pub struct Written {
    /// Its bytes.
    pub bytes: Vec<u8>,
    /// Whether one of the inputs has a time or a height that the lock time has to reach.
    pub is_locked: bool,
}

/// The transaction of a PSBT of version 2, whose maps of inputs and of outputs begin at these places.
pub fn written_transaction(
    alloc: Global,
    psbt: &[u8],
    inputs: &[u32],
    outputs: &[u32],
) -> Result<Written, AllocError>
    ensures text { (global : Map × ℕ) (at middle : ℕ) (input_maps output_maps : List Map) → map_at global_form psbt.now 5 ≡ Ok global → has_types (0x02 ∷ []) global.0 ≡ true
        → InputsAt psbt.now at inputs.now input_maps → OutputsAt psbt.now middle outputs.now output_maps
        → IfOk result (λ written. written.bytes.items ≡ transaction_text (transaction_of_fields global.0 input_maps output_maps)) }
    ensures locked { (at : ℕ) (maps : List Map) → InputsAt psbt.now at inputs.now maps → IfOk result (λ written. written.is_locked ≡ list_any has_lock maps) }
{
    let mut bytes = Vec::with_capacity(alloc, psbt.len())?;
    let version = number_or(psbt, GLOBAL_PLACE, types::GLOBAL_TX_VERSION, 0);
    let fallback = number_or(psbt, GLOBAL_PLACE, types::GLOBAL_FALLBACK_LOCKTIME, 0);
    push_number(&mut bytes, version)?;
    let is_locked = push_inputs(&mut bytes, psbt, inputs)?;
    push_outputs(&mut bytes, psbt, outputs)?;
    let lock_time = lock_time(psbt, is_locked, fallback, inputs);
    push_number(&mut bytes, lock_time)?;
    Ok(Written { bytes, is_locked })
}
