//! The first input that isn't Final.
ghost use Rattle.std.specs.Prelude.{◌≡◌, ◌<◌, List, Some, length, slice_get, option_map, IfOk};
ghost use Rattle.def_psbt.specs.Map.{Map};
ghost use Rattle.def_spend.specs.declared.Verification.TheVariants.{Unverified};
ghost use Rattle.def_spend.specs.Reading.{Input as TheInput, AreInputs, has_final};
ghost use Rattle.def_psbt_answer.specs.Reply.{first_open as the_first_open};

use ms_input::fields_of;
use ms_psbt::Psbt;
use std::alloc::{AllocError, Global};

/// The number of the first input that isn't Final, from 0, or `None` where each is. It looks at the maps alone, and reads no
/// Script. Refuses for want of memory alone.
pub fn first_open(alloc: Global, psbt: &Psbt<'_>) -> Result<Option<usize>, AllocError>
    ensures { IfOk result (λ found. (inputs : List TheInput) → AreInputs Unverified psbt.now inputs → found ≡ option_map (λ (input : TheInput). input.spend.number) (the_first_open inputs)) }
{
    for number in 0..psbt.input_count() {
        if !is_final_at(alloc, psbt, number)? {
            return Ok(Some(number));
        }
    }
    Ok(None)
}

/// Whether the input with this number is Final.
fn is_final_at(alloc: Global, psbt: &Psbt<'_>, number: usize) -> Result<bool, AllocError>
    requires { number < length psbt.now.inputs }
    ensures { IfOk result (λ is. (map : Map) → slice_get psbt.now.inputs number ≡ Some map → is ≡ has_final map) }
{
    let fields = fields_of(alloc, psbt.input_map(number))?;
    Ok(fields.is_final())
}
