//! HMAC-SHA512 (RFC 2104, over the SHA-512 of FIPS 180-4).

ghost use Rattle.std.specs.Prelude.{◌≡◌, ◌-◌, ◌≤◌, ◌++◌, length, replicate};
ghost use Rattle.def_derive.specs.Hmac.{key_block, padded, hmac_sha512};

use sha2::{Digest, Sha512};

/// Some bytes as a block, with zeros behind.
fn filled(bytes: &[u8]) -> [u8; 128]
    requires { length bytes.now ≤ 128 }
    ensures { result ≡ bytes.now ++ replicate (128 - length bytes.now) 0 }
{
    let mut block = [0; 128];
    block[..bytes.len()].copy_from_slice(bytes);
    block
}

/// A key as a block: of a longer key its digest.
fn key_block(key: &[u8]) -> [u8; 128]
    ensures { result ≡ key_block key.now }
{
    if key.len() > 128 {
        let digest = Sha512::digest(key);
        return filled(&digest);
    }
    filled(key)
}

/// Each byte of a block XOR the same byte.
fn padded(block: &[u8; 128], pad: u8) -> [u8; 128]
    ensures { result ≡ padded pad block.now }
{
    let mut bytes = *block;
    for i in 0..128 {
        bytes[i] ^= pad;
    }
    bytes
}

/// HMAC-SHA512 of a message of any length by a key of any length. Takes no memory and never refuses.
#[tactic(auto, unfolding(def_derive::specs::Hmac::hmac_sha512))]
pub fn hmac_sha512(key: &[u8], message: &[u8]) -> [u8; 64]
    ensures { result ≡ hmac_sha512 key.now message.now }
{
    let block = key_block(key);
    let mut inner = Sha512::new();
    inner.update(&padded(&block, 0x36));
    inner.update(message);
    let digest = inner.finalize();
    let mut outer = Sha512::new();
    outer.update(&padded(&block, 0x5c));
    outer.update(&digest);
    outer.finalize()
}
