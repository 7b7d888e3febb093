//! Expressions without children, and what pushed bytes are read as.
ghost use Rattle.std.specs.Prelude.{◌≡◌, Ok, IfOk, IfSome};
ghost use Rattle.def_hash.specs.Hash.{digest_length};
ghost use Rattle.def_tree.specs.Range.{IsDigest, IsWritable};
ghost use Rattle.ms_tree.specs.Shape.{leaf_shape};
ghost use Rattle.ms_decode_laws.specs.Scaffolding.Reader.{natural as the_natural, natural_of};
ghost use Rattle.ms_reading.specs.Scaffolding.Leaves.{key_in, digest_in, hash_lock, hash_tree, pushed_leaf, leaf_tree};
ghost use Rattle.ms_reading.specs.Scaffolding.Parts.{tree_of, made};
ghost use Rattle.ms_reading.specs.Scaffolding.States.{number_of};

use crate::children::Numeral;
use crate::part::Part;
use bumpalo::Bump;
use ms_script::num_decode;
use ms_tree::{HashKind, HashValue, Key, Leaf, leaf};
use std::alloc::{AllocError, Global};

/// The least number of more than ten digits.
const TEN_DIGITS: u64 = 10_000_000_000;

/// The number of at most ten digits that bytes spell.
#[tactic(auto, unfolding(ms_decode_laws::specs::Scaffolding::Reader::natural_of))]
pub fn numeral(bytes: &[u8]) -> Option<Numeral>
    ensures { number_of result ≡ natural_of bytes.now }
{
    match num_decode(bytes, 5) {
        Ok(value) => natural(value),
        Err(_) => None,
    }
}

fn natural(value: i64) -> Option<Numeral>
    ensures { number_of result ≡ the_natural (Ok value) }
{
    if value < 0 {
        return None;
    }
    let value = value.unsigned_abs();
    if value < TEN_DIGITS {
        Some(Numeral { value })
    } else {
        None
    }
}

/// The key that bytes are.
pub fn read_key(bytes: &[u8]) -> Option<Key>
    ensures { result ≡ key_in bytes.now }
{
    Key::from_bytes(bytes)
}

/// The hash value of a function that bytes are.
fn digest<const N: usize>(kind: HashKind, bytes: &[u8]) -> Option<[u8; N]>
    requires { N ≡ digest_length kind }
    ensures value { result ≡ digest_in kind bytes.now }
    ensures writable { IfSome result (IsDigest kind) }
{
    bytes.try_into().ok()
}

fn hash_value(kind: HashKind, bytes: &[u8]) -> Option<HashValue>
    ensures value { hash_lock result ≡ hash_tree kind bytes.now }
    ensures writable { IfSome result (λ value. IsWritable (leaf_shape (Leaf.Hash value))) }
{
    match kind {
        HashKind::Sha256 => Some(HashValue::Sha256(digest(kind, bytes)?)),
        HashKind::Hash256 => Some(HashValue::Hash256(digest(kind, bytes)?)),
        HashKind::Ripemd160 => Some(HashValue::Ripemd160(digest(kind, bytes)?)),
        HashKind::Hash160 => Some(HashValue::Hash160(digest(kind, bytes)?)),
    }
}

/// The part of a leaf.
pub fn leaf_part<'a>(arena: &'a Bump<Global>, root: Leaf) -> Result<Part<'a>, AllocError>
    requires { IsWritable (leaf_shape root) }
    ensures { IfOk result (λ part. tree_of part ≡ leaf_shape root) }
{
    let tree = leaf(arena, root)?;
    Ok(Part {
        tree,
        depth: 1,
        measure: 1,
    })
}

/// The hash lock of these bytes, where they are a hash value of that function.
pub fn hash_part<'a>(
    arena: &'a Bump<Global>,
    kind: HashKind,
    bytes: &[u8],
) -> Result<Option<Part<'a>>, AllocError>
    ensures { IfOk result (λ o. made o ≡ hash_tree kind bytes.now) }
{
    let Some(value) = hash_value(kind, bytes) else {
        return Ok(None);
    };
    let part = leaf_part(arena, Leaf::Hash(value))?;
    Ok(Some(part))
}

/// What a push alone is: a key, `0` or `1`.
fn push_leaf(bytes: &[u8]) -> Option<Leaf>
    ensures value { leaf_tree result ≡ pushed_leaf bytes.now }
    ensures writable { IfSome result (λ root. IsWritable (leaf_shape root)) }
{
    if let Some(key) = read_key(bytes) {
        return Some(Leaf::PkK(key));
    }
    match *bytes {
        [] => Some(Leaf::Zero),
        [1] => Some(Leaf::One),
        _ => None,
    }
}

/// The part of a push alone.
pub fn push_part<'a>(arena: &'a Bump<Global>, bytes: &[u8]) -> Result<Option<Part<'a>>, AllocError>
    ensures { IfOk result (λ o. made o ≡ pushed_leaf bytes.now) }
{
    let Some(root) = push_leaf(bytes) else {
        return Ok(None);
    };
    let part = leaf_part(arena, root)?;
    Ok(Some(part))
}
