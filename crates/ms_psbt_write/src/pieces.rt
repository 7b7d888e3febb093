//! Bytes that are added behind others.

ghost use Rattle.std.specs.Prelude.{◌≡◌, ◌++◌, OnOk};
ghost use Rattle.def_psbt.specs.Map.{pair_text};
ghost use Rattle.def_script.specs.Sizes.{size_bytes};
ghost use Rattle.def_script.specs.Witness.{sized};

use ms_script::compact_size;
use std::alloc::AllocError;

/// Adds the shortest spelling of a size. Most are a byte, which is added without a call.
#[tactic(auto, unfolding(def_script::specs::Sizes::size_bytes))]
pub fn push_size(out: &mut Vec<u8>, size: u64) -> Result<(), AllocError>
    ensures { OnOk result (out.new.items ≡ out.old.items ++ size_bytes size) }
{
    if size < 0xfd {
        out.push(size as u8)?;
        return Ok(());
    }
    out.extend_from_slice(compact_size(size).as_slice())?;
    Ok(())
}

/// Adds a string behind its size.
pub fn push_sized(out: &mut Vec<u8>, bytes: &[u8]) -> Result<(), AllocError>
    ensures { OnOk result (out.new.items ≡ out.old.items ++ sized bytes.now) }
{
    push_size(out, bytes.len() as u64)?;
    out.extend_from_slice(bytes)?;
    Ok(())
}

/// Adds a pair.
pub fn push_pair(out: &mut Vec<u8>, key: &[u8], value: &[u8]) -> Result<(), AllocError>
    ensures { OnOk result (out.new.items ≡ out.old.items ++ pair_text (record { key = key.now; value = value.now })) }
{
    push_sized(out, key)?;
    push_sized(out, value)
}
