//! Words, sources and sinks of calls over memory, in which reads and writes fail where it is said.
ghost use Rattle.std.specs.Prelude.{◌≤◌};

use ms_io::{MemSink, MemSource};
use ms_words::Word;
use std::alloc::{AllocError, Global};

/// The words of a line.
pub fn words_of(alloc: Global, line: &str) -> Result<Vec<Word>, AllocError> {
    let mut words = Vec::new(alloc);
    for text in line.split(' ') {
        words.push(Word::new(String::from_str(alloc, text)?))?;
    }
    Ok(words)
}

/// A source of these bytes that gives so many a call, and fails one of its calls, by its number from 0 on.
pub fn failing_source(
    alloc: Global,
    bytes: &[u8],
    chunk: usize,
    failing: u64,
) -> Result<MemSource, AllocError>
    requires { 1 ≤ chunk }
{
    let bytes = Vec::from_slice(alloc, bytes)?;
    let fail_at = Vec::from_slice(alloc, &[failing])?;
    Ok(MemSource::new(bytes, chunk, fail_at))
}

/// A sink with room that takes so many bytes a call, and fails one of its calls, by its number from 0 on.
pub fn failing_sink(alloc: Global, chunk: usize, failing: u64) -> Result<MemSink, AllocError>
    requires { 1 ≤ chunk }
{
    MemSink::new(alloc, 4_096, chunk, &[failing])
}
