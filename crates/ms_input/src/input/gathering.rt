//! The fields of an input, gathered from the pairs of its map.

ghost use Rattle.std.specs.Prelude.{◌≡◌, IfOk};
ghost use Rattle.ms_input.specs.Held.{held_in};

use crate::fields::Fields;
use ms_psbt::Pairs;
use std::alloc::{AllocError, Global};

/// What a map holds that counts for spending its input. Refuses for want of memory alone.
pub fn fields_of<'a>(alloc: Global, map: Pairs<'a>) -> Result<Fields<'a>, AllocError>
    ensures { IfOk result (λ fields. fields ≡ held_in map.entry) }
{
    let mut fields = Fields::new(alloc);
    for pair in map {
        fields.add(pair.key_type(), pair.key_data(), pair.value())?;
    }
    Ok(fields)
}
