//! The final fields of an input's map.

ghost use Rattle.std.specs.Prelude.{◌≡◌, [], option_map, unwrap_or};
ghost use Rattle.def_psbt.specs.Types.{IN_FINAL_SCRIPTSIG};
ghost use Rattle.def_spend.specs.Fields.{field as the_field};
ghost use Rattle.def_spend.specs.Finalized.{final_witness as the_final_witness};
ghost use Rattle.def_spend.specs.Reading.{has_item as the_has_item};

use def_psbt::types;
use ms_psbt::Pairs;

/// The value of the first pair of a type.
fn field(map: Pairs<'_>, type_number: u64) -> Option<&[u8]>
    ensures { option_map (λ b. b.now) result ≡ the_field type_number map.entry }
{
    for pair in map {
        if pair.key_type() == type_number {
            return Some(pair.value());
        }
    }
    None
}

/// The final scriptSig of an input's map, which is empty where there is none. Takes no memory.
pub fn final_script_sig(map: Pairs<'_>) -> &[u8]
    ensures { result.now ≡ unwrap_or (the_field IN_FINAL_SCRIPTSIG map.entry) [] }
{
    match field(map, types::IN_FINAL_SCRIPTSIG) {
        Some(value) => value,
        None => &[],
    }
}

/// The final witness of an input's map, which has no item where there is none. Takes no memory.
pub fn final_witness(map: Pairs<'_>) -> &[u8]
    ensures { result.now ≡ the_final_witness map.entry }
{
    match field(map, types::IN_FINAL_SCRIPTWITNESS) {
        Some(value) => value,
        None => &[0],
    }
}

/// Whether a final witness has an item.
pub fn has_item(witness: &[u8]) -> bool
    ensures { result ≡ the_has_item (Some witness.now) }
{
    witness != [0].as_slice()
}
