//! The forms of keys and values.

ghost use Rattle.std.specs.Prelude.{◌≡◌};
ghost use Rattle.std.specs.Str.{bytes_eq};
ghost use Rattle.def_hash.specs.Hash.{digest_of, digest_length as the_digest_length};
ghost use Rattle.def_psbt.specs.Forms.{is_public_key as the_is_public_key, is_derivation as the_is_derivation};

use ms_hash::{HashKind, hash160, hash256, ripemd160, sha256};
use ms_script::is_key;

/// Whether bytes are a public key: 33 bytes that begin with 02 or 03, or 65 that begin with 04. Takes no memory.
pub fn is_public_key(bytes: &[u8]) -> bool
    ensures { result ≡ the_is_public_key bytes.now }
{
    is_key(bytes) || (bytes.len() == 65 && bytes[0] == 0x04)
}

/// Whether bytes are a derivation: 4 bytes, and 4 more for each step of a path. Takes no memory.
pub fn is_derivation(bytes: &[u8]) -> bool
    ensures { result ≡ the_is_derivation bytes.now }
{
    bytes.len() >= 4 && bytes.len() % 4 == 0
}

/// Whether the digest of a message is this one. Takes no memory.
pub fn is_digest(kind: HashKind, message: &[u8], digest: &[u8]) -> bool
    ensures { result ≡ bytes_eq (digest_of kind message.now) digest.now }
{
    match kind {
        HashKind::Sha256 => sha256(message).as_slice() == digest,
        HashKind::Hash256 => hash256(message).as_slice() == digest,
        HashKind::Ripemd160 => ripemd160(message).as_slice() == digest,
        HashKind::Hash160 => hash160(message).as_slice() == digest,
    }
}

/// How many bytes a digest has. Takes no memory.
pub fn digest_length(kind: HashKind) -> usize
    ensures { result ≡ the_digest_length kind }
{
    match kind {
        HashKind::Sha256 | HashKind::Hash256 => 32,
        HashKind::Ripemd160 | HashKind::Hash160 => 20,
    }
}
