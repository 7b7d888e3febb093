//! Assets: signatures with their keys, preimages, and the values of the locks.
ghost use Rattle.std.specs.Prelude.{◌≡◌, ◌⊎◌, ◌^◌, ◌<◌, ◌≤◌, [], ◌∷◌, ◌++◌, find, option_map, Ok, Err, IfOk, OnOk, OnErr};
ghost use Rattle.std.specs.Str.{bytes_eq};
ghost use Rattle.def_hash.specs.Hash.{digest_of};
ghost use Rattle.def_machine.specs.Locks.{after_holds, older_holds};
ghost use Rattle.def_assets.specs.Assets.{sig_of as the_sig_of, known, unsigned};
ghost use Rattle.def_files.specs.Laws.{AreFewAssets};
ghost use Rattle.ms_held.specs.declared.assets.AddStop.TheVariants as stop;
ghost use Rattle.ms_hash.specs.Value.{kind_of, bytes_of};
ghost use Rattle.ms_held.specs.Adding.{size_stop as the_size_stop, sig_stop, another_stop, preimage_stop, Answers};

use crate::preimage::Preimage;
use crate::signatures::Signatures;
use ms_bytes::is_signature_size;
use ms_hash::HashValue;
use ms_oracle::{Locks, SigPair, member};
use ms_tree::Key;
use std::alloc::{AllocError, AllocFailed, Global};
use std::marker::Model;

/// How many signatures assets and run files hold at most.
pub const MOST_SIGNATURES: usize = 256;

/// How many preimages assets hold at most.
pub const MOST_PREIMAGES: usize = 256;

/// Why a signature or a preimage isn't added, in the order in which the reasons are tested.
#[derive(Clone, Copy, Debug, PartialEq, Eq)]
pub enum AddStop {
    /// The signature hasn't 1 to 73 bytes: BIP 66 has at most 72 and the hash type.
    SigLength,
    /// 256 of its kind are held.
    TooMany,
    /// A signature is held with the key already, or this one is where a key may have several.
    RepeatedKey,
    /// There was no memory. Only where no other reason applies.
    Memory,
}

impl From<AllocError> for AddStop {
    ghost from_gives = { λ _ why. why ≡ stop.Memory };

    fn from(_error: AllocError) -> AddStop {
        AddStop::Memory
    }
}

impl<T: Drop> From<AllocFailed<T>> for AddStop {
    ghost from_gives = { λ _ why. why ≡ stop.Memory };

    fn from(_error: AllocFailed<T>) -> AddStop {
        AddStop::Memory
    }
}

/// What a wallet holds for a spend: the values of the locks, signatures with their keys, and preimages.
/// Contracts see it as the definition's assets, of which `are_assets` says what they always are.
#[derive(Debug, Drop)]
pub struct Assets {
    locks: Locks,
    pairs: Signatures,
    preimages: Vec<Preimage>,
}

impl Model for Assets {
    ghost use Rattle.def_assets.specs.Assets.{Assets as Held};
    ghost use Rattle.def_files.specs.Laws.{AreFewAssets};

    ghost Value = { Held };

    ghost view = { λ a. record { locks = a.locks; pairs = a.pairs; preimages = a.preimages.items } };

    ghost invariant = { λ a. AreFewAssets (record { locks = a.locks; pairs = a.pairs; preimages = a.preimages.items }) };
}

impl Assets {
    /// Assets with these values of the locks, no signature and no preimage. Takes no memory.
    pub fn new(alloc: Global, locks: Locks) -> Assets
        ensures { result ≡ record { locks = locks; pairs = []; preimages = [] } }
    {
        Assets {
            locks,
            pairs: Signatures::new(alloc),
            preimages: Vec::new(alloc),
        }
    }

    /// Assets of these parts, which are few and have their form. Takes no memory.
    pub fn of_parts(locks: Locks, pairs: Signatures, preimages: Vec<Preimage>) -> Assets
        requires { AreFewAssets (record { locks = locks; pairs = pairs; preimages = preimages.items }) }
        ensures { result ≡ record { locks = locks; pairs = pairs; preimages = preimages.items } }
    {
        Assets {
            locks,
            pairs,
            preimages,
        }
    }

    /// Assets with these values of the locks and these preimages, and no signature. There are at most 256 preimages. Takes
    /// no memory.
    pub fn of_preimages(alloc: Global, locks: Locks, preimages: Vec<Preimage>) -> Assets
        requires { AreFewAssets (record { locks = locks; pairs = []; preimages = preimages.items }) }
        ensures { result ≡ record { locks = locks; pairs = []; preimages = preimages.items } }
    {
        Assets {
            locks,
            pairs: Signatures::new(alloc),
            preimages,
        }
    }

    /// These assets without their signatures: the same values of the locks and the same preimages. Refuses for want of
    /// memory alone.
    pub fn without_signatures(&self, alloc: Global) -> Result<Assets, AllocError>
        ensures { IfOk result (λ made. made ≡ unsigned self.now) }
    {
        self.are_assets();
        self.with_signatures(alloc, Signatures::new(alloc))
    }

    /// These assets with other signatures, which are few and have their form: the same values of the locks and the same
    /// preimages. Refuses for want of memory alone.
    pub fn with_signatures(&self, alloc: Global, pairs: Signatures) -> Result<Assets, AllocError>
        requires { AreFewAssets (record self.now { pairs = pairs }) }
        ensures { IfOk result (λ made. made ≡ record self.now { pairs = pairs }) }
    {
        let preimages = copies(alloc, &self.preimages)?;
        Ok(Assets::of_parts(self.locks, pairs, preimages))
    }

    /// Adds a signature with its key at the end: 1 to 73 bytes, of which nothing else is asked. The key has none yet.
    /// Refused, in this order, by `SigLength`, `TooMany`, `RepeatedKey` and `Memory`; the assets are then what they were.
    pub fn add_sig(&mut self, key: &Key, sig: &[u8]) -> Result<(), AddStop>
        ensures answer { Answers (sig_stop self.old key.now sig.now) result }
        ensures ok { OnOk result (self.new ≡ record self.old { pairs = self.old.pairs ++ (key.now, sig.now) ∷ [] }) }
        ensures err { OnErr result (self.new ≡ self.old) }
    {
        if let Some(stop) = self.size_stop(sig) {
            return Err(stop);
        }
        let bytes = key.as_bytes();
        if self.pairs.holds_key(bytes) {
            return Err(AddStop::RepeatedKey);
        }
        self.push_sig(bytes, sig)
    }

    /// Adds a signature with its key at the end, where the key may have others: `sig_of` then answers the shortest, of
    /// several shortest the one that was added first. Refused as `add_sig` is, but by `RepeatedKey` only where this signature
    /// is held with the key.
    pub fn add_another(&mut self, key: &Key, sig: &[u8]) -> Result<(), AddStop>
        ensures answer { Answers (another_stop self.old key.now sig.now) result }
        ensures ok { OnOk result (self.new ≡ record self.old { pairs = self.old.pairs ++ (key.now, sig.now) ∷ [] }) }
        ensures err { OnErr result (self.new ≡ self.old) }
    {
        if let Some(stop) = self.size_stop(sig) {
            return Err(stop);
        }
        let bytes = key.as_bytes();
        if member(self.pairs.as_slice(), bytes, sig) {
            return Err(AddStop::RepeatedKey);
        }
        self.push_sig(bytes, sig)
    }

    /// Why no signature of this length is added, whatever its key.
    fn size_stop(&self, sig: &[u8]) -> Option<AddStop>
        ensures { result ≡ the_size_stop self.now sig.now }
    {
        if !is_signature_size(sig.len()) {
            return Some(AddStop::SigLength);
        }
        if self.pairs.as_slice().len() >= MOST_SIGNATURES {
            return Some(AddStop::TooMany);
        }
        None
    }

    /// Adds a signature with its key at the end. Refuses for want of memory alone; the assets are then what they were.
    fn push_sig(&mut self, key: &[u8], sig: &[u8]) -> Result<(), AddStop>
        requires { AreFewAssets (record self.old { pairs = self.old.pairs ++ (key.now, sig.now) ∷ [] }) }
        ensures answer { (result ≡ Ok tt) ⊎ (result ≡ Err AddStop.Memory) }
        ensures ok { OnOk result (self.new ≡ record self.old { pairs = self.old.pairs ++ (key.now, sig.now) ∷ [] }) }
        ensures err { OnErr result (self.new ≡ self.old) }
    {
        self.pairs.push(key, sig)?;
        Ok(())
    }

    /// Adds a preimage at the end. It may be held already. Refused by `TooMany`, and else by `Memory`; the assets
    /// are then what they were.
    pub fn add_preimage(&mut self, preimage: &[u8; 32]) -> Result<(), AddStop>
        ensures answer { Answers (preimage_stop self.old) result }
        ensures ok { OnOk result (self.new ≡ record self.old { preimages = self.old.preimages ++ preimage.now ∷ [] }) }
        ensures err { OnErr result (self.new ≡ self.old) }
    {
        if self.preimages.len() >= MOST_PREIMAGES {
            return Err(AddStop::TooMany);
        }
        self.preimages.push(Preimage::new(*preimage))?;
        Ok(())
    }

    /// The values of the locks. No signature is held twice with one key, and all is few and has its form: at
    /// most 256 signatures of 1 to 73 bytes, and at most 256 preimages of 32. Takes no memory.
    pub fn locks(&self) -> Locks
        ensures locks { result ≡ self.now.locks }
        ensures few { AreFewAssets self.now }
    {
        self.locks
    }

    /// What assets always are, for contracts to go on from: no signature is held twice with one key, and all is few and has
    /// its form, as `locks` says too. Does nothing.
    pub fn are_assets(&self)
        ensures { AreFewAssets self.now }
    {
        let _ = &self.locks;
    }

    /// The signatures with their keys, in the order in which they were added or stand in the file. Takes no
    /// memory.
    pub fn pairs(&self) -> &[SigPair]
        ensures { result.now ≡ self.now.pairs }
    {
        self.pairs.as_slice()
    }

    /// The shortest signature of a key, of several shortest the one that was added first, or `None` exactly where the key
    /// has none. It is found by a walk over up to 16 signatures, and by halves among more. Takes no memory.
    pub fn sig_of(&self, key: &Key) -> Option<&[u8]>
        ensures { option_map (λ sig. sig.now) result ≡ the_sig_of self.now key.now }
    {
        self.pairs.shortest(key.as_bytes())
    }

    /// The known preimage of a hash value, its 32 bytes: the first in their order that hashes to it, or `None`
    /// where none does. Takes no memory.
    pub fn preimage_of(&self, value: &HashValue) -> Option<&[u8]>
        ensures { option_map (λ preimage. preimage.now) result ≡ known self.now (kind_of value.now) (bytes_of value.now) }
    {
        first_hashing_to(&self.preimages, value)
    }

    /// Whether a relative timelock holds (BIP 112; its bits are those of BIP 68) in a transaction of this version,
    /// at an input with this sequence number. `n` is its operand, from 1 to 2^31 - 1. Takes no memory.
    pub fn holds_older(&self, n: u64) -> bool
        requires least { 1 ≤ n }
        requires most { n < 2 ^ 31 }
        ensures { result ≡ older_holds n self.now.locks }
    {
        self.locks.older_holds(n)
    }

    /// Whether an absolute timelock holds (BIP 65) in a transaction of this locktime, at an input with this
    /// sequence number. `n` is its operand, from 1 to 2^31 - 1: a height below 500,000,000, and a time in seconds
    /// from there on. Takes no memory.
    pub fn holds_after(&self, n: u64) -> bool
        requires least { 1 ≤ n }
        requires most { n < 2 ^ 31 }
        ensures { result ≡ after_holds n self.now.locks }
    {
        self.locks.after_holds(n)
    }
}

/// The same preimages once more.
fn copies(alloc: Global, preimages: &[Preimage]) -> Result<Vec<Preimage>, AllocError>
    ensures { IfOk result (λ made. made.items ≡ preimages.now) }
{
    let mut made = Vec::new(alloc);
    for preimage in preimages {
        made.push(Preimage::new(*preimage.as_array()))?;
    }
    Ok(made)
}

/// The first preimage that hashes to a value.
fn first_hashing_to<'a>(preimages: &'a [Preimage], value: &HashValue) -> Option<&'a [u8]>
    ensures { option_map (λ preimage. preimage.now) result ≡ find (λ preimage. bytes_eq (digest_of (kind_of value.now) preimage) (bytes_of value.now)) preimages.entry.now }
{
    for preimage in preimages {
        if preimage.hashes_to(value) {
            return Some(preimage.as_bytes());
        }
    }
    None
}
