//! Writing an answer.
ghost use Rattle.std.specs.Prelude.{◌++◌, codes};
ghost use Rattle.def_lines.specs.Answer.{id_member, escaped, answer_line};
ghost use Rattle.ms_io.specs.Sides.{side};
ghost use Rattle.ms_lines.specs.Seen.{ids_seen};
ghost use Rattle.ms_lines.specs.Through.{PassesOrFails};

use crate::feeds::first_line;
use crate::question::Id;
use crate::through::{put, put_three, put_two};
use itoa::Buffer;
use ms_io::{Sink, SinkFailed};

/// Writes an answer of this id, status and report. Takes no memory but what it holds.
pub fn put_answer<K: Sink>(
    sink: &mut K,
    held: &mut Vec<u8>,
    id: Option<Id<'_>>,
    status: u8,
    report: &[u8],
) -> Result<(), SinkFailed>
    ensures { PassesOrFails (side K.written K.faults sink.old sink.new) held.old.items held.new.items (answer_line (ids_seen id.entry) status report.now) result }
{
    let mut buffer = Buffer::new();
    put_id(sink, held, id)?;
    put_three(
        sink,
        held,
        b"\"status\":",
        buffer.format(status).as_bytes(),
        b",\"report\":\"",
    )?;
    put_escaped(sink, held, report)?;
    put(sink, held, b"\"}\n")
}

/// Writes the beginning of an answer, up to its id.
fn put_id<K: Sink>(sink: &mut K, held: &mut Vec<u8>, id: Option<Id<'_>>) -> Result<(), SinkFailed>
    ensures { PassesOrFails (side K.written K.faults sink.old sink.new) held.old.items held.new.items (codes "{" ++ id_member (ids_seen id.entry)) result }
{
    let mut buffer = Buffer::new();
    match id {
        None => put(sink, held, b"{"),
        Some(Id::Whole(n)) => put_three(sink, held, b"{\"id\":", buffer.format(n).as_bytes(), b","),
        Some(Id::Text(text)) => put_three(sink, held, b"{\"id\":\"", text.as_bytes(), b"\","),
    }
}

/// Writes a report as JSON has it in a string.
fn put_escaped<K: Sink>(sink: &mut K, held: &mut Vec<u8>, report: &[u8]) -> Result<(), SinkFailed>
    ensures { PassesOrFails (side K.written K.faults sink.old sink.new) held.old.items held.new.items (escaped report.now) result }
{
    let mut rest = report;
    while let Some((line, after)) = first_line(rest) {
        put_two(sink, held, line, b"\\n")?;
        rest = after;
    }
    if rest.is_empty() {
        return Ok(());
    }
    put(sink, held, rest)
}
