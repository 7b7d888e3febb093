//! The lines of a source, without their blanks.

ghost use Rattle.std.specs.Prelude.{◌≡◌, ◌<◌, ◌^◌, [], ◌∷◌, length, Some, option_map, IfSome, MatchOption, IfOk};
ghost use Rattle.def_psbt.specs.Source.{is_blank as the_is_blank, without_blanks as the_without_blanks};
ghost use Rattle.def_combine.specs.Combine.{lines};
ghost use Rattle.ms_combine.specs.Scaffolding.Left.{lines_in, rest_of, texts_left, text_of, HasRoom};

use memchr::memchr;
use std::alloc::{AllocError, Global};

/// The lines of a source that are left.
#[derive(Clone, Copy, Debug)]
pub struct LinesLeft<'a> {
    /// What stands from the first of them on; none where no line is left.
    pub rest: Option<&'a [u8]>,
    /// The number of the first of them.
    pub number: usize,
}

/// What is left of a line without blanks, which has a byte, and the line's number.
#[derive(Debug, Drop)]
pub struct Line {
    /// The line's number.
    pub number: usize,
    /// Its bytes without blanks.
    pub text: Vec<u8>,
}

/// All lines of a source.
pub fn all_lines(source: &[u8]) -> LinesLeft<'_>
    requires { length source.now < 2 ^ 31 }
    ensures rest { rest_of result ≡ Some source.entry.now }
    ensures number { result.number ≡ 1 }
    ensures room { HasRoom result }
{
    LinesLeft {
        rest: Some(source),
        number: 1,
    }
}

/// The first line, and what stands behind its line feed; none where it ends without one.
fn first_line(bytes: &[u8]) -> (&[u8], Option<&[u8]>)
    ensures line { lines bytes.now ≡ result.0.now ∷ lines_in (option_map (λ rest. rest.now) result.1) }
    ensures shorter { IfSome result.1 (λ rest. length rest.now < length bytes.now) }
{
    match memchr(b'\n', bytes) {
        Some(end) => (&bytes[..end], Some(&bytes[end + 1..])),
        None => (bytes, None),
    }
}

/// Whether a byte is a space, a tab, CR or LF.
fn is_blank(byte: u8) -> bool
    ensures { result ≡ the_is_blank byte }
{
    byte == 0x20 || byte == 0x09 || byte == 0x0d || byte == 0x0a
}

/// The bytes that aren't blank.
fn without_blanks(alloc: Global, line: &[u8]) -> Result<Vec<u8>, AllocError>
    ensures { IfOk result (λ text. text.items ≡ the_without_blanks line.now) }
{
    let mut text = Vec::with_capacity(alloc, line.len())?;
    'bytes: for byte in line {
        if !is_blank(*byte) {
            text.push(*byte)?;
        }
    }
    Ok(text)
}

/// The first of the lines that are left of which something is left without blanks; it and those before it are passed.
pub fn next_text(alloc: Global, left: &mut LinesLeft<'_>) -> Result<Option<Line>, AllocError>
    requires { HasRoom left.old }
    ensures texts { IfOk result (λ next. MatchOption next (texts_left left.old ≡ []) (λ line. texts_left left.old ≡ text_of line ∷ texts_left left.new)) }
    ensures room { HasRoom left.new }
{
    while let Some(rest) = left.rest {
        let number = left.number;
        let (line, behind) = first_line(rest);
        *left = LinesLeft {
            rest: behind,
            number: number + 1,
        };
        let text = without_blanks(alloc, line)?;
        if !text.is_empty() {
            return Ok(Some(Line { number, text }));
        }
    }
    Ok(None)
}
