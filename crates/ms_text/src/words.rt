//! What a word spells (BIP 379): a number, a key or a hash value.
ghost use Rattle.std.specs.Prelude.{◌≡◌, ◌<◌, ◌≤◌, length, IfSome};
ghost use Rattle.std.specs.Option.{option_map};
ghost use Rattle.def_hash.specs.Hash.{digest_length};
ghost use Rattle.def_tree.specs.Range.{IsDigest, IsKey, TEN_DIGITS};
ghost use Rattle.def_text.specs.Word.{number_of, key_of, hash_of};
ghost use Rattle.ms_hash.specs.Value.{bytes_of, kind_of};
ghost use Rattle.ms_text.specs.Scaffolding.Words.{DecodesTo, digits_after};

use def_tree::HashKind;
use ms_hash::HashValue;
use ms_tree::Key;

/// The number that a word spells: `0`, or one to ten digits without a leading zero. Takes no memory.
pub fn number_spelled(word: &[u8]) -> Option<u64>
    ensures value { result ≡ number_of word.now }
    ensures writable { IfSome result (λ n. n < TEN_DIGITS) }
{
    if word == b"0".as_slice() {
        return Some(0);
    }
    if word.is_empty() || word.len() > 10 || word[0] == b'0' {
        return None;
    }
    decimal(word)
}

/// The value of at most ten decimal digits.
fn decimal(word: &[u8]) -> Option<u64>
    requires { length word.now ≤ 10 }
    ensures value { result ≡ digits_after 0 word.now }
    ensures writable { IfSome result (λ n. n < TEN_DIGITS) }
{
    let mut value = 0;
    for &byte in word {
        if !byte.is_ascii_digit() {
            return None;
        }
        value = value * 10 + (byte - b'0') as u64;
    }
    Some(value)
}

/// The bytes that a word of hexadecimal digits, in either case, spells, where they are `N`. Takes no memory.
pub fn decoded<const N: usize>(word: &[u8]) -> Option<[u8; N]>
    ensures { DecodesTo N word.now result }
{
    let mut bytes = [0; N];
    match hex::decode_to_slice(word, &mut bytes) {
        Ok(()) => Some(bytes),
        Err(_) => None,
    }
}

/// The key that a word spells by 66 hexadecimal digits of either case, or `None` where it spells none. Takes no memory.
pub fn key_spelled(word: &[u8]) -> Option<Key>
    ensures key { result ≡ key_of word.now }
    ensures writable { IfSome result IsKey }
{
    let Some(bytes) = decoded::<33>(word) else {
        return None;
    };
    Key::from_bytes(&bytes)
}

/// The bytes of a hash value that a word spells.
fn digest<const N: usize>(kind: HashKind, word: &[u8]) -> Option<[u8; N]>
    requires { N ≡ digest_length kind }
    ensures value { result ≡ hash_of kind word.now }
    ensures writable { IfSome result (IsDigest kind) }
{
    decoded(word)
}

/// The hash value that a word spells.
pub fn hash_spelled(kind: HashKind, word: &[u8]) -> Option<HashValue>
    ensures kind { IfSome result (λ value. kind_of value ≡ kind) }
    ensures value { option_map bytes_of result ≡ hash_of kind word.now }
    ensures writable { IfSome result (λ value. IsDigest kind (bytes_of value)) }
{
    match kind {
        HashKind::Sha256 => Some(HashValue::Sha256(digest(kind, word)?)),
        HashKind::Hash256 => Some(HashValue::Hash256(digest(kind, word)?)),
        HashKind::Ripemd160 => Some(HashValue::Ripemd160(digest(kind, word)?)),
        HashKind::Hash160 => Some(HashValue::Hash160(digest(kind, word)?)),
    }
}
