//! What the tokens of keys say.

ghost use Rattle.std.specs.Prelude.{◌≡◌, ◌<◌, ◌^◌, ◌==◌, ◌&&◌, ◌||◌, nat_eq, length, take, drop, slice_index, codes, IfOk};
ghost use Rattle.std.specs.List.{list_any};
ghost use Rattle.std.specs.Option.{option_map};
ghost use Rattle.std.specs.Str.{bytes_eq};
ghost use Rattle.def_descriptor.specs.ReadKey.{extended_word as the_extended_word, is_private as the_is_private, other_word as the_other_word};
ghost use Rattle.ms_derive.specs.Nodes.{extended_at};

use def_descriptor::DescriptorFault;
use ms_derive::{Extended, extended_of};
use ms_paths::is_word;
use std::alloc::{AllocError, Global};

/// How many digits an extended key has.
const EXTENDED_DIGITS: usize = 111;

/// The extended key that a word spells. The only refusal is want of memory.
pub fn extended_word(alloc: Global, word: &[u8]) -> Result<Option<Extended>, AllocError>
    ensures { IfOk result (λ found. option_map extended_at found ≡ the_extended_word word.now) }
{
    if word.len() != EXTENDED_DIGITS {
        return Ok(None);
    }
    extended_of(alloc, word)
}

/// Whether a word is the name of a private key.
fn is_private_name(word: &[u8]) -> bool
    ensures { result ≡ bytes_eq (take 3 (drop 1 word.now)) (codes "prv") }
{
    let end = word.len().min(4);
    let start = end.min(1);
    &word[start..end] == b"prv".as_slice()
}

/// Whether a byte is one that the Base58Check text of one private key begins with.
fn begins_private(byte: u8) -> bool
    ensures { result ≡ list_any (nat_eq byte) (codes "59KLc") }
{
    byte == b'5' || byte == b'9' || byte == b'K' || byte == b'L' || byte == b'c'
}

/// Whether a word has the length of one private key, and begins as that does.
fn is_private_key(word: &[u8]) -> bool
    ensures { result ≡ ((length word.now == 51 || length word.now == 52) && list_any (nat_eq (slice_index word.now 0)) (codes "59KLc")) }
{
    (word.len() == 51 || word.len() == 52) && begins_private(word[0])
}

/// Whether a word looks like a private key.
fn is_private(word: &[u8]) -> bool
    ensures { result ≡ the_is_private word.now }
{
    is_private_name(word) || is_private_key(word)
}

/// Why a word that is no key is refused.
pub fn other_word(at: usize, word: &[u8]) -> DescriptorFault
    requires { at < 2 ^ 32 }
    ensures { result ≡ the_other_word at word.now }
{
    if is_private(word) {
        return DescriptorFault::Private(at as u32);
    }
    if is_word(word) {
        return DescriptorFault::Key(at as u32);
    }
    DescriptorFault::Syntax(at as u32)
}
