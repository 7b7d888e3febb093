//! Listed keys, found by their HASH160.
ghost use Rattle.std.specs.Prelude.{◌≡◌, [], All, IfOk, if◌then◌else◌};
ghost use Rattle.def_decode.specs.Decoded.{first_with};
ghost use Rattle.def_tree.specs.Range.{IsKey};
ghost use Rattle.ms_reading.specs.Scaffolding.Dups.{is_dup as the_is_dup, has_dup as the_has_dup};
ghost use Rattle.ms_reading.specs.Scaffolding.Keys.{keys_of};
ghost use Rattle.ms_reading.specs.Scaffolding.States.{instruction_of};

use crate::codes::Code;
use crate::hashed::Hashed;
use ms_hash::hash160;
use ms_script::Op;
use ms_tree::Key;
use std::alloc::{AllocError, Global};

/// The keys that a Script may hold by their HASH160: all where it has a DUP, as each `pk_h` has, and else none.
pub fn wanted_keys<'k>(codes: &[Code<'_>], keys: &'k [Key]) -> &'k [Key]
    ensures wanted { result.now ≡ (if the_has_dup codes.now then keys.entry.now else []) }
    ensures are_keys { All IsKey keys.entry.now }
{
    see_keys(keys);
    if has_dup(codes) { keys } else { &keys[..0] }
}

/// Its clause tells what keys always are.
fn see_keys(keys: &[Key])
    ensures { All IsKey keys.now }
{
    for key in keys {
        let _bytes = key.as_bytes();
    }
}

fn has_dup(codes: &[Code<'_>]) -> bool
    ensures { result ≡ the_has_dup codes.now }
{
    codes.iter().any(|code| is_dup(code))
}

fn is_dup(code: &Code<'_>) -> bool
    ensures { result ≡ the_is_dup (instruction_of code.now) }
{
    matches!(code, Code::Op(Op::Dup))
}

/// Keys beside their HASH160s, in their order.
pub fn hash_keys(alloc: Global, keys: &[Key]) -> Result<Vec<Hashed>, AllocError>
    ensures keys { IfOk result (λ hashed. keys_of hashed.items ≡ keys.now) }
    ensures are_keys { IfOk result (λ hashed. All IsKey (keys_of hashed.items)) }
{
    let mut hashed = Vec::with_capacity(alloc, keys.len())?;
    for key in keys {
        hashed.push(Hashed {
            key: *key,
            hash: hash160(key.as_bytes()),
        })?;
    }
    Ok(hashed)
}

/// The first of some keys with this HASH160.
pub fn first_key(keys: &[Hashed], hash: &[u8]) -> Option<Key>
    ensures { result ≡ first_with (keys_of keys.now) hash.now }
{
    for hashed in keys {
        if hashed.hash.as_slice() == hash {
            return Some(hashed.key);
        }
    }
    None
}
