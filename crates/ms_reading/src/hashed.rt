//! Keys beside their HASH160s.
ghost use Rattle.std.specs.Prelude.{◌≡◌};
ghost use Rattle.def_hash.specs.Hash.{hash160};

use ms_tree::Key;

/// A key beside its HASH160.
#[derive(Clone, Copy)]
pub struct Hashed {
    /// The key.
    pub key: Key,
    /// Its HASH160, 20 bytes.
    pub hash: [u8; 20],
    ghost is_hash: { hash ≡ hash160 key },
}
