//! The words that a program is called with.

ghost use Rattle.std.specs.Prelude.{◌≡◌, ◌⊎◌, IfErr};

use crate::word::Word;
use std::alloc::Global;
use std::env::{self, Env};
use std::io;

/// The exit code where the words are wanting for want of memory, as the programs' own.
const NO_MEMORY: u8 = 7;

/// The exit code where the runtime refuses the words for another cause, such as one that isn't UTF-8.
const NO_WORDS: u8 = 11;

/// The words after the program's name, or the exit code of a program that gets none: 7 for want of memory, and 11 where the
/// runtime refuses them for another cause, such as a word that isn't UTF-8.
pub fn command_line(alloc: Global, rt: &(impl Env + Alloc<A = Global>)) -> Result<Vec<Word>, u8>
    ensures { IfErr result (λ code. (code ≡ 7) ⊎ (code ≡ 11)) }
{
    match words(alloc, rt) {
        Ok(words) => Ok(words),
        Err(error) => {
            if matches!(error.kind(), io::ErrorKind::OutOfMemory) {
                Err(NO_MEMORY)
            } else {
                Err(NO_WORDS)
            }
        }
    }
}

/// The words after the program's name.
fn words(alloc: Global, rt: &(impl Env + Alloc<A = Global>)) -> io::Result<Vec<Word>> {
    let mut words = Vec::new(alloc);
    for text in env::args(rt)?.skip(1) {
        words.push(Word::new(text))?;
    }
    Ok(words)
}
