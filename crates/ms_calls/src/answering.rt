//! The program's top call over buffers.
ghost use Rattle.std.specs.Prelude.{◌≡◌, ◌⊎◌, length};
ghost use Rattle.def_answer.specs.Status.{code_of};
ghost use Rattle.msat_lines.specs.Frame.{OtherAnswer};
ghost use Rattle.ms_calls.specs.Buffers.{written_over};
ghost use Rattle.ms_calls.specs.Lines.{HoldsOfLines};
ghost use Rattle.ms_calls.specs.Words.{HoldsOfAnswer, AreNoWords};

use crate::copying::write_over;
use crate::words::{NoWords, read_words};
use msat_lines::answer_whole;
use std::alloc::{AllocError, Global};

/// The code where memory is wanting, as the program's own.
pub const NO_MEMORY: u32 = 7;

/// The code where words or a text can't be read, as the program's own.
pub const UNREADABLE: u32 = 11;

/// Answers the words of a command line, as the program does where its standard input holds `source`.
///
/// The words lie in one buffer, each with a 0 after it, and there are `count` of them. The report's beginning is written over
/// the buffer's, as far as there is room, and `needed` is how many bytes the whole report has: with so much room a second call
/// gives it whole. The answer is the program's exit code: 0 to 4 or 8 to 10, and further 7 where memory was wanting and 11 where
/// the buffer isn't so many words. After 7 and 11 the buffer and `needed` are as they were.
pub fn answer(
    alloc: Global,
    count: usize,
    words: &[u8],
    source: &[u8],
    report: &mut [u8],
    needed: &mut usize,
) -> u32
    // The answer is that of the words and the source.
    ensures status { HoldsOfAnswer OtherAnswer count words.now source.now result (λ s r. result ≡ code_of s) }
    ensures written { HoldsOfAnswer OtherAnswer count words.now source.now result (λ s r. report.new ≡ written_over report.old r) }
    ensures needed { HoldsOfAnswer OtherAnswer count words.now source.now result (λ s r. needed.new ≡ length r) }
    // Of the one word `lines` it is the answers to the lines of the source, as one report.
    ensures lines { HoldsOfLines count words.now source.now result report.old report.new needed.new }
    // Where there are no words there is no answer.
    ensures unreadable { AreNoWords count words.now → (result ≡ 11) ⊎ (result ≡ 7) }
    ensures kept { (result ≡ 11) ⊎ (result ≡ 7) → report.new ≡ report.old }
    ensures kept_needed { (result ≡ 11) ⊎ (result ≡ 7) → needed.new ≡ needed.old }
{
    let words = match read_words(alloc, count, words) {
        Ok(words) => words,
        Err(NoWords::Unreadable) => return UNREADABLE,
        Err(NoWords::Memory) => return NO_MEMORY,
    };
    match answer_whole(alloc, &words, source) {
        Ok(replied) => {
            *needed = replied.report.len();
            let _count = write_over(&replied.report, report);
            replied.status.code() as u32
        }
        Err(AllocError) => NO_MEMORY,
    }
}
