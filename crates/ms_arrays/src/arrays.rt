//! The assets of arrays.
ghost use Rattle.std.specs.Prelude.{◌≡◌, ◌≤◌, ◌++◌, [], ◌∷◌, length, IfOk, OnOk};
ghost use Rattle.def_files.specs.Refusals.{MOST_SIGNATURES as THE_MOST_SIGNATURES};
ghost use Rattle.ms_assets.specs.Parts.{first, IsOrMemory, Reads};
ghost use Rattle.ms_arrays.specs.Pieces.{preimages_in};
ghost use Rattle.ms_arrays.specs.ArrayAssets.{shape_refusals, assets_of_arrays};

use crate::checking::check_pairs;
use crate::cutting::{KEY_SIZE, PREIMAGE_SIZE, add_preimages, add_up_to, read_pairs};
use ms_assets::{AssetFault, Assets, MOST_PREIMAGES, MOST_SIGNATURES, Member};
use ms_oracle::{Locks, Pairs, SigPair};
use ms_tree::Key;
use std::alloc::{AllocError, Global};
use std::marker::Model;

/// What a wallet holds, in arrays that were lent: the values of the locks; keys of 33 bytes one after the other, and signatures
/// one after the other, at each place one of the key there, with their lengths; and preimages of 32 bytes one after the other.
/// Contracts see what they give: assets, or why these are refused.
#[derive(Drop)]
pub struct Arrays<'a> {
    locks: Locks,
    keys: &'a [u8],
    signatures: &'a [u8],
    lengths: &'a [usize],
    preimages: &'a [u8],
}

impl<'a> Model for Arrays<'a> {
    ghost use Rattle.std.specs.Prelude.{Result};
    ghost use Rattle.def_assets.specs.Assets.{Assets as Held};
    ghost use Rattle.def_files.specs.declared.AssetFault.{AssetFault as Fault};
    ghost use Rattle.ms_arrays.specs.ArrayAssets.{assets_of_arrays};

    ghost Value = { Result Held Fault };

    ghost view = { λ a. assets_of_arrays a.locks a.keys.now a.signatures.now a.lengths.now a.preimages.now };
}

impl<'a> Arrays<'a> {
    /// These. Takes no memory.
    pub fn new(
        locks: Locks,
        keys: &'a [u8],
        signatures: &'a [u8],
        lengths: &'a [usize],
        preimages: &'a [u8],
    ) -> Arrays<'a>
        ensures { result ≡ assets_of_arrays locks keys.now signatures.now lengths.now preimages.now }
    {
        Arrays {
            locks,
            keys,
            signatures,
            lengths,
            preimages,
        }
    }

    /// The assets.
    ///
    /// They are refused, in this order, by the shape of the signatures where there aren't 33 bytes of keys for each length, or the
    /// lengths don't add up; the shape of the preimages where these aren't 32 bytes each; over 256 of either; the first key that
    /// hasn't its form; the first signature that hasn't 1 to 73 bytes; and the first pair that stands there twice. Want of memory,
    /// `Memory`, may come in place of any answer but those of shape and count.
    pub fn assets(&self, alloc: Global) -> Result<Assets, AssetFault>
        ensures { IsOrMemory self.now result }
    {
        read(
            alloc,
            self.locks,
            self.keys,
            self.signatures,
            self.lengths,
            self.preimages,
        )
    }
}

/// The assets with these values of the locks, and with what lies in arrays.
#[tactic(auto, using(crate::proofs::Steps::pairs_length))]
fn read(
    alloc: Global,
    locks: Locks,
    keys: &[u8],
    signatures: &[u8],
    lengths: &[usize],
    preimages: &[u8],
) -> Result<Assets, AssetFault>
    ensures { IsOrMemory (assets_of_arrays locks keys.now signatures.now lengths.now preimages.now) result }
{
    check_arrays(keys, signatures, lengths, preimages)?;
    let Ok(pairs) = read_pairs(alloc, keys, signatures, lengths) else {
        return Err(AssetFault::Memory);
    };
    check_pairs(pairs.as_slice())?;
    match held(alloc, locks, &pairs, preimages) {
        Ok(assets) => Ok(assets),
        Err(AllocError) => Err(AssetFault::Memory),
    }
}

/// Refuses arrays that haven't the lengths that are told, or hold too much.
fn check_arrays(
    keys: &[u8],
    signatures: &[u8],
    lengths: &[usize],
    preimages: &[u8],
) -> Result<(), AssetFault>
    ensures refusal { Reads (first (shape_refusals keys.now signatures.now lengths.now preimages.now)) (λ unit. unit) tt result }
    ensures few { OnOk result (length lengths.now ≤ THE_MOST_SIGNATURES) }
{
    if keys.len() % KEY_SIZE != 0 || keys.len() / KEY_SIZE != lengths.len() {
        return Err(AssetFault::Shape(Member::Signatures));
    }
    if !add_up_to(lengths, signatures.len()) {
        return Err(AssetFault::Shape(Member::Signatures));
    }
    if preimages.len() % PREIMAGE_SIZE != 0 {
        return Err(AssetFault::Shape(Member::Preimages));
    }
    if lengths.len() > MOST_SIGNATURES {
        return Err(AssetFault::TooMany(Member::Signatures));
    }
    if preimages.len() / PREIMAGE_SIZE > MOST_PREIMAGES {
        return Err(AssetFault::TooMany(Member::Preimages));
    }
    Ok(())
}

/// The assets of these parts. Refuses for want of memory alone.
fn held(alloc: Global, locks: Locks, pairs: &Pairs, preimages: &[u8]) -> Result<Assets, AllocError>
    ensures { IfOk result (λ assets. assets ≡ record { locks = locks; pairs = pairs.now; preimages = preimages_in preimages.now }) }
{
    let mut assets = Assets::new(alloc, locks);
    add_preimages(&mut assets, preimages)?;
    add_pairs(&mut assets, pairs.as_slice())?;
    Ok(assets)
}

/// Adds signatures with their keys. Refuses for want of memory alone.
fn add_pairs(assets: &mut Assets, pairs: &[SigPair]) -> Result<(), AllocError>
    ensures { OnOk result (assets.new ≡ record assets.old { pairs = assets.old.pairs ++ pairs.now }) }
{
    for pair in pairs {
        add_pair(assets, pair)?;
    }
    Ok(())
}

/// Adds a signature with its key. Refuses for want of memory alone, where the key and the signature have their form.
fn add_pair(assets: &mut Assets, pair: &SigPair) -> Result<(), AllocError>
    ensures { OnOk result (assets.new ≡ record assets.old { pairs = assets.old.pairs ++ pair.now ∷ [] }) }
{
    let Some(key) = Key::from_bytes(pair.key()) else {
        return Err(AllocError);
    };
    match assets.add_another(&key, pair.sig()) {
        Ok(()) => Ok(()),
        Err(_) => Err(AllocError),
    }
}
