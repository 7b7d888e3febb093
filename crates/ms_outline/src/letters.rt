//! The letters of a type (BIP 379).
ghost use Rattle.std.specs.Prelude.{◌≡◌, ◌++◌, OnOk};
ghost use Rattle.std.specs.String.{string_bytes};
ghost use Rattle.def_answer.specs.Check.{base_letter as the_base_letter, type_letters, letter};

use ms_types::{Base, CorrectnessType, MalleabilityProperties};
use std::alloc::AllocError;

/// Adds the base type's letter, and those of the properties that hold. `AllocError` comes only where memory is wanting.
pub fn push_letters(
    letters: &mut String,
    ty: CorrectnessType,
    properties: MalleabilityProperties,
) -> Result<(), AllocError>
    ensures { OnOk result (string_bytes letters.new ≡ string_bytes letters.old ++ type_letters ty properties) }
{
    letters.push_str(base_letter(ty.base))?;
    push_letter(letters, ty.z, "z")?;
    push_letter(letters, ty.o, "o")?;
    push_letter(letters, ty.n, "n")?;
    push_letter(letters, ty.d, "d")?;
    push_letter(letters, ty.u, "u")?;
    push_letter(letters, properties.s, "s")?;
    push_letter(letters, properties.f, "f")?;
    push_letter(letters, properties.e, "e")?;
    Ok(())
}

/// Adds the letter of a property that holds.
fn push_letter(letters: &mut String, holds: bool, name: &str) -> Result<(), AllocError>
    ensures { OnOk result (string_bytes letters.new ≡ string_bytes letters.old ++ letter holds name.now) }
{
    if holds {
        letters.push_str(name)?;
    }
    Ok(())
}

/// The letter of a base type.
fn base_letter(base: Base) -> &'static str
    ensures { result.now ≡ the_base_letter base }
{
    match base {
        Base::B => "B",
        Base::V => "V",
        Base::K => "K",
        Base::W => "W",
    }
}
