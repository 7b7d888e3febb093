//! A PSBT around the maps of its inputs.

ghost use Rattle.std.specs.Prelude.{◌≡◌, ◌++◌, OnOk, IfOk};
ghost use Rattle.std.specs.List.{flat_map};
ghost use Rattle.def_psbt.specs.Map.{magic, map_text};

use ms_psbt::Psbt;
use std::alloc::{AllocError, Global};

/// Begins a PSBT with what stands before the maps of inputs, the magic and the global map, and has room for as many bytes as
/// there were. Refuses for want of memory alone.
pub fn begin_psbt(alloc: Global, psbt: &Psbt<'_>) -> Result<Vec<u8>, AllocError>
    ensures { IfOk result (λ out. out.items ≡ magic ++ map_text psbt.now.global) }
{
    let mut out = Vec::with_capacity(alloc, psbt.bytes().len())?;
    out.extend_from_slice(psbt.before_inputs())?;
    Ok(out)
}

/// Ends a PSBT with what stands behind the maps of inputs, the maps of outputs. Refuses for want of memory alone.
pub fn finish_psbt(out: &mut Vec<u8>, psbt: &Psbt<'_>) -> Result<(), AllocError>
    ensures { OnOk result (out.new.items ≡ out.old.items ++ flat_map map_text psbt.now.outputs) }
{
    out.extend_from_slice(psbt.after_inputs())?;
    Ok(())
}
