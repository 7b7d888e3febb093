//! Which reply is made to the words of a command line, or why none is.

ghost use Rattle.std.specs.Prelude.{◌≡◌, ◌≤◌, None};
ghost use Rattle.def_psbt_answer.specs.Words.{request_of};
ghost use Rattle.ms_io.specs.Sides.{side};
ghost use Rattle.ms_io.specs.Reads.{ReadsFront, IsUnread};
ghost use Rattle.psbt_cli.specs.Scaffolding.Steps.{EndsRequest, EndsWords};

use crate::words::read_request;
use def_psbt_answer::Request;
use ms_io::{ReadStop, Source, read_all};
use ms_psbt::MAX_SOURCE_SIZE;
use ms_psbt_report::{Reply, request_reply};
use ms_words::Word;
use std::alloc::Global;

/// Why no reply was made. For words that name no command, and where the source is too long, the report is the same for all,
/// and takes no memory.
#[derive(Clone, Copy, Debug, PartialEq, Eq)]
pub enum Stop {
    /// The words name no command.
    Usage,
    /// The source has over 16,777,216 bytes.
    TooLong,
    /// A read of the source failed.
    ReadFault,
    /// There was no memory.
    Memory,
}

/// The reply to the words. The source is read only where they name a command.
pub fn answer_words<S: Source>(alloc: Global, words: &[Word], source: &mut S) -> Result<Reply, Stop>
    ensures answer { EndsWords words.now (side S.left S.faults source.old source.new) result }
    ensures later { S.faults source.old ≤ S.faults source.new }
    ensures front { ReadsFront (S.left source.old) (S.left source.new) }
    ensures unread { request_of words.now ≡ None → IsUnread (side S.left S.faults source.old source.new) }
{
    match read_request(words) {
        Some(request) => answer_request(alloc, request, source),
        None => Err(Stop::Usage),
    }
}

/// The reply to what is asked, with what the source holds.
fn answer_request<S: Source>(alloc: Global, request: Request, source: &mut S) -> Result<Reply, Stop>
    ensures answer { EndsRequest request (side S.left S.faults source.old source.new) result }
    ensures later { S.faults source.old ≤ S.faults source.new }
    ensures front { ReadsFront (S.left source.old) (S.left source.new) }
{
    let bytes = match read_all(alloc, source, MAX_SOURCE_SIZE) {
        Ok(bytes) => bytes,
        Err(ReadStop::TooLong) => return Err(Stop::TooLong),
        Err(ReadStop::Fault) => return Err(Stop::ReadFault),
        Err(ReadStop::Memory) => return Err(Stop::Memory),
    };
    match request_reply(alloc, request, &bytes) {
        Ok(reply) => Ok(reply),
        Err(_) => Err(Stop::Memory),
    }
}
