//! The top call of `msat-descriptor` over buffers.
ghost use Rattle.std.specs.Prelude.{◌≡◌, ◌⊎◌, length, IfOk};
ghost use Rattle.def_descriptor_answer.specs.Answer.{Answer};
ghost use Rattle.def_descriptor_answer.specs.Status.{code_of};
ghost use Rattle.ms_calls.specs.Buffers.{written_over};
ghost use Rattle.ms_calls.specs.Words.{HoldsOfAnswer, AreNoWords};

use def_descriptor_answer::Status;
use def_descriptor_answer::laws::one_answer;
use descriptor_cli::{Word, msat_descriptor};
use ms_calls::{NO_MEMORY, NoWords, UNREADABLE, read_words, write_over};
use ms_frame::Replied;
use ms_io::ByteSource;
use ms_lines::ByteSink;
use std::alloc::{AllocError, Global};

/// Answers the words of a command line, as the program `msat-descriptor` does where its standard input holds `source`: for
/// `update` a PSBT (BIP 174, BIP 370), as its bytes or as base64.
///
/// The words lie in one buffer, each with a 0 after it, and there are `count` of them. The report's beginning is written over
/// the buffer's, as far as there is room, and `needed` is how many bytes the whole report has: with so much room a second call
/// gives it whole. The answer is the program's exit code: 0 to 4, and further 7 where memory was wanting and 11 where the
/// buffer isn't so many words. After 7 and 11 the buffer and `needed` are as they were.
pub fn descriptor_answer(
    alloc: Global,
    count: usize,
    words: &[u8],
    source: &[u8],
    report: &mut [u8],
    needed: &mut usize,
) -> u32
    // The answer is that of the words and the source.
    ensures status { HoldsOfAnswer Answer count words.now source.now result (λ s r. result ≡ code_of s) }
    ensures written { HoldsOfAnswer Answer count words.now source.now result (λ s r. report.new ≡ written_over report.old r) }
    ensures needed { HoldsOfAnswer Answer count words.now source.now result (λ s r. needed.new ≡ length r) }
    // Where there are no words there is no answer.
    ensures unreadable { AreNoWords count words.now → (result ≡ 11) ⊎ (result ≡ 7) }
    ensures kept { (result ≡ 11) ⊎ (result ≡ 7) → report.new ≡ report.old }
    ensures kept_needed { (result ≡ 11) ⊎ (result ≡ 7) → needed.new ≡ needed.old }
{
    let words = match read_words(alloc, count, words) {
        Ok(words) => words,
        Err(NoWords::Unreadable) => return UNREADABLE,
        Err(NoWords::Memory) => return NO_MEMORY,
    };
    one_answer();
    match answer_in_memory(alloc, &words, source) {
        Ok(replied) => {
            *needed = replied.report.len();
            let _count = write_over(&replied.report, report);
            replied.status.code() as u32
        }
        Err(AllocError) => NO_MEMORY,
    }
}

/// Answers the words where the source and the sink lie in memory. Refuses for want of memory alone.
fn answer_in_memory(
    alloc: Global,
    words: &[Word],
    source: &[u8],
) -> Result<Replied<Status>, AllocError>
    ensures { IfOk result (λ replied. Answer words.now source.now replied.status replied.report.items) }
{
    let mut source = ByteSource::new(source);
    let mut sink = ByteSink::new(alloc);
    let status = msat_descriptor(alloc, words, &mut source, &mut sink);
    match status {
        Status::ReadFault | Status::WriteFault | Status::Memory => Err(AllocError),
        _ => Ok(Replied {
            status,
            report: sink.bytes,
        }),
    }
}
