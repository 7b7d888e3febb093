//! Maps of inputs, as they are and made final.

ghost use Rattle.std.specs.Prelude.{◌≡◌, ◌++◌, [], ◌∷◌, filter, OnOk, MatchOption};
ghost use Rattle.std.specs.List.{flat_map};
ghost use Rattle.def_psbt.specs.Map.{pair_text, map_text};
ghost use Rattle.def_spend.specs.Finalized.{is_cleared as the_is_cleared, is_kept, final_pairs, final_map};

use crate::pieces::push_pair;
use def_psbt::types;
use ms_psbt::{PairRef, Pairs};
use std::alloc::AllocError;

/// Whether the pairs of a type are cleared once the input is final: what only signers want, and what was final before.
fn is_cleared(type_number: u64) -> bool
    ensures { result ≡ the_is_cleared type_number }
{
    (types::IN_PARTIAL_SIG <= type_number && type_number <= types::IN_FINAL_SCRIPTWITNESS)
        || (types::IN_RIPEMD160 <= type_number && type_number <= types::IN_HASH256)
}

/// Adds the pairs of a map that are kept, in their order.
fn push_kept(out: &mut Vec<u8>, map: Pairs<'_>) -> Result<(), AllocError>
    ensures { OnOk result (out.new.items ≡ out.old.items ++ flat_map pair_text (filter is_kept map.entry)) }
{
    let mut left = map;
    while let Some((pair, text)) = next_pair(&mut left) {
        if !is_cleared(pair.key_type()) {
            out.extend_from_slice(text)?;
        }
    }
    Ok(())
}

/// The first pair of what is left of a map, which is passed, and its bytes; none where the map ends.
fn next_pair<'a>(left: &mut Pairs<'a>) -> Option<(PairRef<'a>, &'a [u8])>
    ensures { MatchOption result (left.old ≡ []) (λ next. (left.old ≡ next.0 ∷ left.new) × (next.1.now ≡ pair_text next.0)) }
{
    let text = left.bytes();
    let pair = left.next()?;
    let size = text.len() - left.bytes().len();
    Some((pair, &text[..size]))
}

/// Adds a map as it is. Refuses for want of memory alone.
pub fn push_map(out: &mut Vec<u8>, map: &Pairs<'_>) -> Result<(), AllocError>
    ensures { OnOk result (out.new.items ≡ out.old.items ++ map_text map.now) }
{
    out.extend_from_slice(map.bytes())?;
    Ok(())
}

/// Adds the final map of an input: the pairs of its map that are kept, in their order and byte for byte, and behind them its final
/// scriptSig, where it has a byte, and its final witness (BIP 174, "Input Finalizer"). Refuses for want of memory alone.
pub fn push_final_map(
    out: &mut Vec<u8>,
    map: Pairs<'_>,
    script_sig: &[u8],
    witness: &[u8],
) -> Result<(), AllocError>
    ensures { OnOk result (out.new.items ≡ out.old.items ++ map_text (final_map map.entry script_sig.now witness.now)) }
{
    push_kept(out, map)?;
    push_final_pairs(out, script_sig, witness)?;
    out.push(0x00)?;
    Ok(())
}

/// Adds the final scriptSig, where it has a byte, and the final witness.
fn push_final_pairs(out: &mut Vec<u8>, script_sig: &[u8], witness: &[u8]) -> Result<(), AllocError>
    ensures { OnOk result (out.new.items ≡ out.old.items ++ flat_map pair_text (final_pairs script_sig.now witness.now)) }
{
    if !script_sig.is_empty() {
        push_pair(out, &[types::IN_FINAL_SCRIPTSIG as u8], script_sig)?;
    }
    push_pair(out, &[types::IN_FINAL_SCRIPTWITNESS as u8], witness)
}
