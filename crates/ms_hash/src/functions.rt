//! SHA-256, the functions made of it, and the one that a name asks for.

ghost use Rattle.std.specs.Prelude.{◌≡◌};
ghost use Rattle.def_hash.specs.Hash.{sha256, hash160, hash256, digest_of};
ghost use Rattle.ms_hash.specs.Value.{kind_of, bytes_of};

use crate::{HashKind, HashValue, ripemd160};
use sha2::{Digest, Sha256};

/// SHA-256 of a message of any length (FIPS 180-4). Takes no memory and never refuses.
pub fn sha256(message: &[u8]) -> [u8; 32]
    ensures { result ≡ sha256 message.now }
{
    Sha256::digest(message)
}

/// SHA-256 of the SHA-256 of a message (Bitcoin Core: `OP_HASH256`). Takes no memory and never refuses.
#[tactic(auto, unfolding(def_hash::specs::Hash::hash256))]
pub fn hash256(message: &[u8]) -> [u8; 32]
    ensures { result ≡ hash256 message.now }
{
    sha256(&sha256(message))
}

/// RIPEMD-160 of the SHA-256 of a message (Bitcoin Core: `OP_HASH160`). Takes no memory and never refuses.
#[tactic(auto, unfolding(def_hash::specs::Hash::hash160))]
pub fn hash160(message: &[u8]) -> [u8; 20]
    ensures { result ≡ hash160 message.now }
{
    ripemd160(&sha256(message))
}

/// The hash value of a message by the named function, one of the four of BIP 379. Takes no memory and never refuses.
pub fn hash_of(kind: HashKind, message: &[u8]) -> HashValue
    ensures kind { kind_of result ≡ kind }
    ensures digest { bytes_of result ≡ digest_of kind message.now }
{
    match kind {
        HashKind::Sha256 => HashValue::Sha256(sha256(message)),
        HashKind::Hash256 => HashValue::Hash256(hash256(message)),
        HashKind::Ripemd160 => HashValue::Ripemd160(ripemd160(message)),
        HashKind::Hash160 => HashValue::Hash160(hash160(message)),
    }
}
