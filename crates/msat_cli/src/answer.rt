//! Which answer is given to the words of a command line, or why none is made.
ghost use Rattle.std.specs.Prelude.{◌≤◌};
ghost use Rattle.def_answer.specs.Sources.{NeedsSource, ReadsSource};
ghost use Rattle.def_answer.specs.Words.{IsCommand};
ghost use Rattle.ms_io.specs.Sides.{side};
ghost use Rattle.ms_io.specs.Reads.{ReadsFront, IsUnread};
ghost use Rattle.ms_words.specs.Commands.{seen, HaveUtf8};
ghost use Rattle.msat_cli.specs.Scaffolding.Steps.{AsMade, EndsCommand, EndsWords};

use crate::source::{answer_run, answer_trace};
use crate::texts::answer_text;
use bumpalo::Bump;
use ms_generator::answer_gen;
use ms_io::Source;
use ms_replies::decode_answer;
use ms_report::Answer;
use ms_words::{Command, Word, read_words};
use std::alloc::{AllocError, Global};

/// Why no report was made. For words without a form, and where a text or a file is too long, the report is the same
/// for all, and takes no memory.
#[derive(Clone, Copy, Debug, PartialEq, Eq)]
pub enum Stop {
    /// The words have no form.
    Usage,
    /// The text has more than 65,536 bytes.
    TextTooLong,
    /// The source has more bytes than a file may have.
    FileTooLong,
    /// A read of the source failed.
    ReadFault,
    /// There was no memory.
    Memory,
}

/// Answers the words. A tree lies in the arena, and the answer outside it.
pub fn answer_words<S: Source>(
    alloc: Global,
    arena: &Bump<Global>,
    words: &[Word],
    source: &mut S,
) -> Result<Answer, Stop>
    ensures answer { EndsWords words.now (side S.left S.faults source.old source.new) result }
    ensures utf8 { HaveUtf8 words.now }
    ensures later { S.faults source.old ≤ S.faults source.new }
    ensures front { ReadsFront (S.left source.old) (S.left source.new) }
    ensures unread { ¬ ReadsSource words.now → IsUnread (side S.left S.faults source.old source.new) }
{
    match read_words(words) {
        Some(command) => answer_command(alloc, arena, command, source),
        None => Err(Stop::Usage),
    }
}

/// Answers a command. The source is read only where the command wants a file, and its text, where it has one, was
/// neither refused nor unfit.
fn answer_command<S: Source>(
    alloc: Global,
    arena: &Bump<Global>,
    command: Command<'_>,
    source: &mut S,
) -> Result<Answer, Stop>
    requires { IsCommand (seen command) }
    ensures answer { EndsCommand (seen command.entry) (side S.left S.faults source.old source.new) result }
    ensures later { S.faults source.old ≤ S.faults source.new }
    ensures front { ReadsFront (S.left source.old) (S.left source.new) }
    ensures unread { ¬ NeedsSource (seen command.entry) → IsUnread (side S.left S.faults source.old source.new) }
{
    match command {
        Command::Text(kind, text) => answer_text(alloc, arena, kind, text, source),
        Command::Run => answer_run(alloc, source),
        Command::Trace => answer_trace(alloc, source),
        Command::Gen(n) => or_memory(answer_gen(alloc, arena, n)),
        Command::Decode(digits, keys) => or_memory(decode_answer(alloc, arena, digits, keys)),
    }
}

/// An answer that takes memory alone.
pub fn or_memory(answer: Result<Answer, AllocError>) -> Result<Answer, Stop>
    ensures { AsMade answer result }
{
    match answer {
        Ok(answer) => Ok(answer),
        Err(_) => Err(Stop::Memory),
    }
}
