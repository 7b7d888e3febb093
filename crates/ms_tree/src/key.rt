//! Public keys.
ghost use Rattle.std.specs.Prelude.{◌≡◌, ℕ, ◌↔◌, List, IsSome, IfSome};
ghost use Rattle.def_tree.specs.Range.{IsKey};

use ms_bytes::is_key;
use std::marker::Model;

/// A compressed public key, as BIP 143 asks of P2WSH: 33 bytes of which the first is 02 or 03. That it
/// lies on the curve isn't tested. Contracts see it as its bytes.
#[derive(Clone, Copy, Debug, PartialEq, Eq)]
pub struct Key {
    bytes: [u8; 33],
}

impl Model for Key {
    ghost Value = { List ℕ };

    ghost view = { λ k. k.bytes };

    ghost invariant = { λ k. IsKey k.bytes };

    ghost inverse = { λ bytes. record { bytes = bytes } };
}

impl Key {
    /// The key of these bytes, or `None` exactly where they are no key. Takes no memory.
    pub fn from_bytes(bytes: &[u8]) -> Option<Key>
        ensures found { IsSome result ↔ IsKey bytes.now }
        ensures value { IfSome result (λ key. key ≡ bytes.now) }
    {
        if !is_key(bytes) {
            return None;
        }
        let bytes: [u8; 33] = bytes.try_into().ok()?;
        Some(Key { bytes })
    }

    /// Its 33 bytes. Takes no memory.
    pub fn as_bytes(&self) -> &[u8]
        ensures bytes { result.now ≡ self.now }
        ensures key { IsKey result.now }
    {
        &self.bytes
    }
}
