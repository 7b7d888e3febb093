//! Hash values.

ghost use Rattle.std.specs.Prelude.{◌≡◌, length};
ghost use Rattle.def_hash.specs.Hash.{digest_length};
ghost use Rattle.ms_hash.specs.Value.{kind_of, bytes_of};

use crate::HashKind;

/// A hash value, beside the function that it is of. Contracts see it through `kind_of` and `bytes_of`.
#[derive(Clone, Copy, Debug, PartialEq, Eq)]
pub enum HashValue {
    /// The 32 bytes of a SHA-256.
    Sha256([u8; 32]),
    /// The 32 bytes of a SHA-256 of a SHA-256.
    Hash256([u8; 32]),
    /// The 20 bytes of a RIPEMD-160.
    Ripemd160([u8; 20]),
    /// The 20 bytes of a RIPEMD-160 of a SHA-256.
    Hash160([u8; 20]),
}

impl HashValue {
    /// The function that the value is of.
    pub fn kind(&self) -> HashKind
        ensures { result ≡ kind_of self.now }
    {
        match self {
            HashValue::Sha256(_) => HashKind::Sha256,
            HashValue::Hash256(_) => HashKind::Hash256,
            HashValue::Ripemd160(_) => HashKind::Ripemd160,
            HashValue::Hash160(_) => HashKind::Hash160,
        }
    }

    /// The value's bytes, in the order in which Script pushes them: 32 of `Sha256` and `Hash256`, 20 of `Ripemd160` and
    /// `Hash160`.
    pub fn as_bytes(&self) -> &[u8]
        ensures bytes { result.now ≡ bytes_of self.now }
        ensures length { length result.now ≡ digest_length (kind_of self.now) }
    {
        match self {
            HashValue::Sha256(bytes) | HashValue::Hash256(bytes) => bytes,
            HashValue::Ripemd160(bytes) | HashValue::Hash160(bytes) => bytes,
        }
    }
}
