//! Cutting arrays into the byte strings that lie in them.
ghost use Rattle.std.specs.Prelude.{◌≡◌, ◌==◌, ◌*◌, ◌++◌, length, sum, IfOk, OnOk, [], ◌∷◌};
ghost use Rattle.ms_arrays.specs.Pieces.{KEY_SIZE as THE_KEY_SIZE, PREIMAGE_SIZE as THE_PREIMAGE_SIZE, pairs_at, items_at, preimages_in};

use ms_assets::Assets;
use ms_oracle::Pairs;
use ms_script::Stack;
use std::alloc::{AllocError, Global};

/// How many bytes a key has.
pub const KEY_SIZE: usize = 33;

/// How many bytes a preimage has.
pub const PREIMAGE_SIZE: usize = 32;

/// Whether lengths add up to this one.
pub fn add_up_to(lengths: &[usize], whole: usize) -> bool
    ensures { result ≡ (sum lengths.now == whole) }
{
    let mut rest = whole;
    for length in lengths {
        if *length > rest {
            return false;
        }
        rest -= *length;
    }
    rest == 0
}

/// The keys, each with the signature of the length at its place. Refuses for want of memory alone.
pub fn read_pairs(
    alloc: Global,
    keys: &[u8],
    signatures: &[u8],
    lengths: &[usize],
) -> Result<Pairs, AllocError>
    requires keys { length keys.now ≡ THE_KEY_SIZE * length lengths.now }
    requires signatures { sum lengths.now ≡ length signatures.now }
    ensures { IfOk result (λ pairs. pairs ≡ pairs_at lengths.now keys.now signatures.now) }
{
    let mut pairs = Pairs::new(alloc);
    let mut keys_left = keys;
    let mut signatures_left = signatures;
    for length in lengths {
        let (key, other_keys) = keys_left.split_at(KEY_SIZE);
        let (signature, others) = signatures_left.split_at(*length);
        pairs.push(key, signature)?;
        keys_left = other_keys;
        signatures_left = others;
    }
    Ok(pairs)
}

/// The items of these lengths, first one first. Refuses for want of memory alone.
pub fn read_items(alloc: Global, bytes: &[u8], lengths: &[usize]) -> Result<Stack, AllocError>
    requires { sum lengths.now ≡ length bytes.now }
    ensures { IfOk result (λ stack. stack ≡ items_at lengths.now bytes.now) }
{
    let mut stack = Stack::new(alloc);
    let mut rest = bytes;
    for length in lengths {
        let (item, others) = rest.split_at(*length);
        stack.push(item)?;
        rest = others;
    }
    Ok(stack)
}

/// Adds the preimages. Refuses for want of memory alone.
pub fn add_preimages(assets: &mut Assets, preimages: &[u8]) -> Result<(), AllocError>
    ensures { OnOk result (assets.new ≡ record assets.old { preimages = assets.old.preimages ++ preimages_in preimages.now }) }
{
    let mut rest = preimages;
    for _ in 0..preimages.len() / PREIMAGE_SIZE {
        let (first, others) = rest.split_at(PREIMAGE_SIZE);
        add_preimage(assets, first)?;
        rest = others;
    }
    Ok(())
}

/// Adds a preimage. Refuses for want of memory alone.
fn add_preimage(assets: &mut Assets, preimage: &[u8]) -> Result<(), AllocError>
    requires { length preimage.now ≡ THE_PREIMAGE_SIZE }
    ensures { OnOk result (assets.new ≡ record assets.old { preimages = assets.old.preimages ++ preimage.now ∷ [] }) }
{
    let Ok(bytes) = <[u8; 32]>::try_from(preimage) else {
        return Err(AllocError);
    };
    match assets.add_preimage(&bytes) {
        Ok(()) => Ok(()),
        Err(_) => Err(AllocError),
    }
}
