//! Which reply is made to the words of a command line, or why none is.

ghost use Rattle.std.specs.Prelude.{◌<◌, ◌≤◌, ⊤, Some};
ghost use Rattle.def_descriptor_answer.specs.Words.{command_of, update};
ghost use Rattle.def_descriptor_answer.specs.Answer.{RepliesToCommand};
ghost use Rattle.def_descriptor_answer.specs.Laws.{AskUtf8, IsUpdate};
ghost use Rattle.ms_io.specs.Sides.{side};
ghost use Rattle.ms_io.specs.Reads.{ReadsFront, IsUnread};
ghost use Rattle.ms_descriptor_update.specs.Opening.{IsOpen};
ghost use Rattle.descriptor_cli.specs.Scaffolding.Steps.{seen, IsAsked, EndsBy, EndsKnown, EndsCommand, EndsWords};

use crate::words::{Command, read_words};
use ms_descriptor_replies::{Reply, check_reply, derive_reply};
use ms_descriptor_update::{DescriptorBook, Opened, open_book, update_reply};
use ms_io::{ReadStop, Source, read_all};
use ms_psbt::MAX_SOURCE_SIZE;
use ms_words::Word;
use std::alloc::Global;

/// Why no reply was made. For words that ask nothing, and where the source is too long, the report is the same for all, and takes no memory.
#[derive(Clone, Copy, Debug, PartialEq, Eq)]
pub enum Stop {
    /// The words ask nothing.
    Usage,
    /// The source has over 16,777,216 bytes.
    TooLong,
    /// A read of the source failed.
    ReadFault,
    /// There was no memory.
    Memory,
}

/// The reply to the outputs of a descriptor, with what the source holds.
fn answer_source<S: Source>(
    alloc: Global,
    book: &DescriptorBook<'_>,
    source: &mut S,
) -> Result<Reply, Stop>
    requires { IsOpen book.now }
    ensures answer { EndsKnown book.now.known.0 (side S.left S.faults source.old source.new) result }
    ensures later { S.faults source.old ≤ S.faults source.new }
    ensures front { ReadsFront (S.left source.old) (S.left source.new) }
{
    let bytes = match read_all(alloc, source, MAX_SOURCE_SIZE) {
        Ok(bytes) => bytes,
        Err(ReadStop::TooLong) => return Err(Stop::TooLong),
        Err(ReadStop::Fault) => return Err(Stop::ReadFault),
        Err(ReadStop::Memory) => return Err(Stop::Memory),
    };
    match update_reply(alloc, book, &bytes) {
        Ok(reply) => Ok(reply),
        Err(_) => Err(Stop::Memory),
    }
}

/// The reply to `update`. The source is read only where the descriptor and its trees aren't refused.
fn answer_update<S: Source>(
    alloc: Global,
    text: &str,
    count: u32,
    source: &mut S,
) -> Result<Reply, Stop>
    requires { 0 < count }
    ensures answer { EndsBy (RepliesToCommand (update text.now count)) ⊤ (side S.left S.faults source.old source.new) result }
    ensures later { S.faults source.old ≤ S.faults source.new }
    ensures front { ReadsFront (S.left source.old) (S.left source.new) }
{
    match open_book(alloc, text, count) {
        Ok(Opened::Book(book)) => answer_source(alloc, &book, source),
        Ok(Opened::Refused(reply)) => Ok(reply),
        Err(_) => Err(Stop::Memory),
    }
}

/// The reply to what is asked. The source is read only for `update`.
fn answer_command<S: Source>(
    alloc: Global,
    command: Command<'_>,
    source: &mut S,
) -> Result<Reply, Stop>
    requires { IsAsked command }
    ensures answer { EndsCommand (seen command.entry) (side S.left S.faults source.old source.new) result }
    ensures later { S.faults source.old ≤ S.faults source.new }
    ensures front { ReadsFront (S.left source.old) (S.left source.new) }
    ensures unread { (IsUpdate (Some (seen command.entry)) → ⊥) → IsUnread (side S.left S.faults source.old source.new) }
{
    match command {
        Command::Check(text) => match check_reply(alloc, text) {
            Ok(reply) => Ok(reply),
            Err(_) => Err(Stop::Memory),
        },
        Command::Derive(asked) => match derive_reply(alloc, &asked) {
            Ok(reply) => Ok(reply),
            Err(_) => Err(Stop::Memory),
        },
        Command::Update(text, count) => answer_update(alloc, text, count, source),
    }
}

/// The reply to the words. The source is read only where they ask for an update.
pub fn answer_words<S: Source>(alloc: Global, words: &[Word], source: &mut S) -> Result<Reply, Stop>
    ensures answer { EndsWords words.now (side S.left S.faults source.old source.new) result }
    ensures later { S.faults source.old ≤ S.faults source.new }
    ensures front { ReadsFront (S.left source.old) (S.left source.new) }
    ensures unread { (IsUpdate (command_of words.now) → ⊥) → IsUnread (side S.left S.faults source.old source.new) }
    ensures utf8 { AskUtf8 (command_of words.now) }
{
    let Some(command) = read_words(words) else {
        return Err(Stop::Usage);
    };
    answer_command(alloc, command, source)
}
