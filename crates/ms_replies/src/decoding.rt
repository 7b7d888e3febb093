//! What is answered to a Script that is to be read back as a text.
ghost use Rattle.std.specs.Prelude.{◌≡◌, All, IfOk, IsSome, map};
ghost use Rattle.std.specs.String.{string_bytes};
ghost use Rattle.def_text.specs.Word.{key_of as the_key_of};
ghost use Rattle.def_answer.specs.Answer.{bytes_of, RepliesToScript};
ghost use Rattle.def_answer.specs.Reply.{reply};
ghost use Rattle.def_answer.specs.Words.{IsHex};

use bumpalo::Bump;
use def_answer::Status;
use hex::FromHexError;
use ms_decode::decode;
use ms_report::{Answer, decode_report};
use ms_tree::Key;
use ms_words::Word;
use std::alloc::{AllocError, Global};

/// The answer to a Script, whose digits these are, as `decode` gives it: the text that it is read back as with these
/// keys, or that it has none. The tree lies in the arena. It demands that the words are digits of bytes and keys.
/// `AllocError` comes only where memory is wanting.
pub fn decode_answer(
    alloc: Global,
    arena: &Bump<Global>,
    digits: &str,
    words: &[Word],
) -> Result<Answer, AllocError>
    requires digits { IsHex digits.now }
    requires keys { All (λ word. IsSome (the_key_of word)) words.now }
    ensures { IfOk result (λ answer. RepliesToScript (map bytes_of words.now) (bytes_of digits.now) (reply answer.status (string_bytes answer.report))) }
{
    let script = script_of(alloc, digits)?;
    let keys = keys_of(alloc, words)?;
    match decode(alloc, arena, &script, &keys)? {
        Some(valid) => Ok(Answer {
            status: Status::Done,
            report: decode_report(alloc, &valid.tree)?,
        }),
        None => Ok(Answer {
            status: Status::NoReading,
            report: String::from_str(alloc, "no reading\n")?,
        }),
    }
}

/// The bytes of the Script.
fn script_of(alloc: Global, digits: &str) -> Result<Vec<u8>, AllocError>
    requires { IsHex digits.now }
    ensures { IfOk result (λ script. script.items ≡ bytes_of digits.now) }
{
    match hex::decode(alloc, digits) {
        Ok(script) => Ok(script),
        Err(FromHexError::OutOfMemory) => Err(AllocError),
        Err(FromHexError::InvalidHexCharacter { .. }) => unreachable!(),
        Err(FromHexError::OddLength) => unreachable!(),
        Err(FromHexError::InvalidStringLength) => unreachable!(),
    }
}

/// The keys that the words spell.
fn keys_of(alloc: Global, words: &[Word]) -> Result<Vec<Key>, AllocError>
    requires { All (λ word. IsSome (the_key_of word)) words.now }
    ensures { IfOk result (λ keys. keys.items ≡ map bytes_of words.now) }
{
    let mut keys = Vec::new(alloc);
    for word in words {
        keys.push(spelled_key(word))?;
    }
    Ok(keys)
}

/// The key that a word spells.
fn spelled_key(word: &Word) -> Key
    requires { IsSome (the_key_of word.now) }
    ensures { result ≡ bytes_of word.now }
{
    word.key().unwrap()
}
