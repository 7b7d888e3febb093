//! Keys with their signatures, which lie in the bytes of a PSBT.

ghost use Rattle.std.specs.Prelude.{◌≡◌};

use ms_tree::Key;
use std::marker::Model;

/// A compressed key with its signature. Contracts see the pair of both.
#[derive(Debug, Drop)]
pub struct SignedRef<'a> {
    key: Key,
    sig: &'a [u8],
}

impl<'a> Model for SignedRef<'a> {
    ghost use Rattle.std.specs.Prelude.{ℕ, List};

    ghost Value = { List ℕ × List ℕ };

    ghost view = { λ s. (s.key, s.sig.now) };
}

impl<'a> SignedRef<'a> {
    /// This pair. Takes no memory.
    pub fn new(key: Key, sig: &'a [u8]) -> SignedRef<'a>
        ensures { result ≡ (key, sig.entry.now) }
    {
        SignedRef { key, sig }
    }

    /// The key. Takes no memory.
    pub fn key(&self) -> &Key
        ensures { result.now ≡ self.now.0 }
    {
        &self.key
    }

    /// The signature. Takes no memory.
    pub fn sig(&self) -> &'a [u8]
        ensures { result.now ≡ self.now.1 }
    {
        self.sig
    }
}
