//! Pairs of a key and a signature, and the tables of them that say which signatures are good.
ghost use Rattle.std.specs.Prelude.{◌≡◌, ◌&&◌, List, [], ◌∷◌, ◌++◌, IfOk, OnOk, OnErr};
ghost use Rattle.std.specs.Str.{bytes_eq};
ghost use Rattle.def_machine.specs.Stacks.{member as the_member};

use ms_bytes::Blob;
use std::alloc::{AllocError, Global};
use std::marker::Model;

/// The bytes of a key and of a signature, of any length: a signature is what CHECKSIG takes (BIP 143), with its
/// hash type as its last byte, and is compared byte for byte. Contracts see the pair of the two byte strings.
#[derive(Debug, Drop)]
pub struct SigPair {
    key: Blob,
    sig: Blob,
}

impl Model for SigPair {
    ghost use Rattle.def_script.specs.Bytes.{Bytes};

    ghost Value = { Bytes × Bytes };

    ghost view = { λ p. (p.key, p.sig) };
}

impl SigPair {
    /// Copies the key and the signature. Refuses for want of memory alone.
    pub fn new(alloc: Global, key: &[u8], sig: &[u8]) -> Result<SigPair, AllocError>
        ensures { IfOk result (λ pair. pair ≡ (key.now, sig.now)) }
    {
        let key = Blob::from_slice(alloc, key)?;
        let sig = Blob::from_slice(alloc, sig)?;
        Ok(SigPair::of(key, sig))
    }

    /// The pair of a key and a signature, which it takes over. Takes no memory, and never refuses.
    pub fn of(key: Blob, sig: Blob) -> SigPair
        ensures { result ≡ (key, sig) }
    {
        SigPair { key, sig }
    }

    /// The bytes of the key. Takes no memory, and never refuses.
    pub fn key(&self) -> &[u8]
        ensures { result.now ≡ self.now.0 }
    {
        self.key.as_slice()
    }

    /// The bytes of the signature. Takes no memory, and never refuses.
    pub fn sig(&self) -> &[u8]
        ensures { result.now ≡ self.now.1 }
    {
        self.sig.as_slice()
    }

    /// Whether this is the pair of this key and this signature.
    fn is(&self, key: &[u8], sig: &[u8]) -> bool
        ensures { result ≡ (bytes_eq self.now.0 key.now && bytes_eq self.now.1 sig.now) }
    {
        self.key() == key && self.sig() == sig
    }
}

/// Pairs of a key and a signature, in the order in which they were added; a pair may stand there several times.
/// Contracts see the list of the pairs.
#[derive(Debug, Drop)]
pub struct Pairs {
    alloc: Global,
    pairs: Vec<SigPair>,
}

impl Model for Pairs {
    ghost use Rattle.std.specs.Prelude.{List};
    ghost use Rattle.def_script.specs.Bytes.{Bytes};

    ghost Value = { List (Bytes × Bytes) };

    ghost view = { λ p. p.pairs.items };
}

impl Pairs {
    /// No pairs. Takes no memory, and never refuses; pairs are added with this allocator.
    pub fn new(alloc: Global) -> Pairs
        ensures { result ≡ [] }
    {
        Pairs {
            alloc,
            pairs: Vec::new(alloc),
        }
    }

    /// Copies a key and a signature, and adds their pair at the end. Refuses for want of memory alone; the pairs are
    /// then those that they were.
    pub fn push(&mut self, key: &[u8], sig: &[u8]) -> Result<(), AllocError>
        ensures ok { OnOk result (self.new ≡ self.old ++ (key.now, sig.now) ∷ []) }
        ensures err { OnErr result (self.new ≡ self.old) }
    {
        let pair = SigPair::new(self.alloc, key, sig)?;
        self.push_pair(pair)
    }

    /// Adds a pair at the end, which it takes over. Refuses for want of memory alone; the pairs are then those that they were.
    pub fn push_pair(&mut self, pair: SigPair) -> Result<(), AllocError>
        ensures ok { OnOk result (self.new ≡ self.old ++ pair ∷ []) }
        ensures err { OnErr result (self.new ≡ self.old) }
    {
        self.pairs.push(pair)?;
        Ok(())
    }

    /// The pairs, first one first. Takes no memory, and never refuses.
    pub fn as_slice(&self) -> &[SigPair]
        ensures { result.now ≡ self.now }
    {
        &self.pairs
    }
}

/// Whether the table holds the pair of this key and this signature, byte for byte: a walk over its pairs. Takes no
/// memory, and never refuses.
pub fn member(table: &[SigPair], key: &[u8], sig: &[u8]) -> bool
    ensures { result ≡ the_member table.now key.now sig.now }
{
    for pair in table {
        if pair.is(key, sig) {
            return true;
        }
    }
    false
}
