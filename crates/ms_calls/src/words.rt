//! Reading the words of a call from one buffer.
ghost use Rattle.std.specs.Prelude.{◌≡◌, ◌≢◌, ◌++◌, ◌∷◌, IfOk, MatchOption, IsUtf8, ⊤, Err};
ghost use Rattle.def_script.specs.Bytes.{Bytes};
ghost use Rattle.ms_calls.specs.Words.{HasNoNul, AreWords, AreNoWords, OneList};

use memchr::memchr;
use msat_cli::Word;
use std::alloc::Global;

/// Why there are no words.
#[derive(Clone, Copy, Debug, PartialEq, Eq)]
pub enum NoWords {
    /// The bytes aren't so many words.
    Unreadable,
    /// Memory was wanting.
    Memory,
}

/// The words that these bytes are: so many pieces of UTF-8, each with a 0 after it and none in it, and nothing behind them.
pub fn read_words(alloc: Global, count: usize, bytes: &[u8]) -> Result<Vec<Word>, NoWords>
    ensures words { IfOk result (λ words. AreWords count bytes.now words.items) }
    ensures none { result ≡ Err NoWords.Unreadable → AreNoWords count bytes.now }
{
    let mut words = Vec::new(alloc);
    let mut rest = bytes;
    for _ in 0..count {
        let Some((text, after)) = first_word(rest) else {
            return Err(NoWords::Unreadable);
        };
        let Ok(word) = String::from_str(alloc, text) else {
            return Err(NoWords::Memory);
        };
        if words.push(Word::new(word)).is_err() {
            return Err(NoWords::Memory);
        }
        rest = after;
    }
    if !rest.is_empty() {
        return Err(NoWords::Unreadable);
    }
    Ok(words)
}

/// The word before the first 0, and the bytes after it.
fn first_word(bytes: &[u8]) -> Option<(&str, &[u8])>
    ensures first { MatchOption result ((word rest : Bytes) → IsUtf8 word → HasNoNul word → bytes.now ≢ word ++ 0 ∷ rest) (λ part. bytes.now ≡ part.0.now ++ 0 ∷ part.1.now) }
    ensures no_nul { MatchOption result ⊤ (λ part. HasNoNul part.0.now) }
    ensures utf8 { MatchOption result ⊤ (λ part. IsUtf8 part.0.now) }
{
    let end = memchr(0, bytes)?;
    let Ok(word) = str::from_utf8(&bytes[..end]) else {
        return None;
    };
    Some((word, &bytes[end + 1..]))
}

/// Bytes are at most one list of words.
pub fn words_are_one()
    ensures { OneList }
{}
