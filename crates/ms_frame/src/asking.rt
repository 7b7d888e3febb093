//! Words that ask for lines, and the words of a question.
ghost use Rattle.std.specs.Prelude.{◌≡◌, ◌↔◌, [], ◌∷◌, map, IsTrue, IfOk};
ghost use Rattle.std.specs.String.{string_bytes};
ghost use Rattle.ms_frame.specs.Asking.{AsksLines};

use ms_words::Word;
use std::alloc::{AllocError, Global};

/// Whether these are the one word `lines`. Takes no memory.
pub fn asks_lines(words: &[Word]) -> bool
    ensures { IsTrue result ↔ AsksLines words.now }
{
    match words {
        [word] => is_lines(word.as_str()),
        _ => false,
    }
}

/// Whether a word alone asks for lines.
fn is_lines(word: &str) -> bool
    ensures { IsTrue result ↔ AsksLines (word.now ∷ []) }
{
    word == "lines"
}

/// The words of these texts, in their order. Refuses for want of memory alone.
pub fn words_of(alloc: Global, texts: Vec<String>) -> Result<Vec<Word>, AllocError>
    ensures { IfOk result (λ words. words.items ≡ map string_bytes texts.items) }
{
    let mut words = Vec::with_capacity(alloc, texts.len())?;
    for text in texts {
        words.push(Word::new(text))?;
    }
    Ok(words)
}
