//! A question that is read from the tokens of its line, of which no value is made.
ghost use Rattle.std.specs.Prelude.{◌≡◌, ℕ, ◌<◌, ◌∷◌, length, map, Some, IfSome, IfOk, OnOk};
ghost use Rattle.std.specs.String.{string_bytes};
ghost use Rattle.json.specs.Token.{Token as SpecToken};
ghost use Rattle.json.specs.Json.{items, value};
ghost use Rattle.serde_json.specs.Data.{unsigned};
ghost use Rattle.serde_json.specs.Read.{number_of};
ghost use Rattle.def_files.specs.Json.{reading};
ghost use Rattle.def_lines.specs.Question.{id_in, id_number as the_id_number, told_words as the_told_words, line_read};
ghost use Rattle.ms_lines.specs.Seen.{id_seen, plain_seen};
ghost use Rattle.ms_lines.specs.Scaffolding.Tokens.{Reads, strings, MembersAsk};

use crate::question::{Id, id_number, id_text};
use itoa::Buffer;
use json::{Invalid, Reader, Scratch, Token};
use std::alloc::{AllocError, AllocFailed, Global};

/// A question, whose words are texts of their own.
#[derive(Drop)]
pub struct Plain<'a> {
    /// Its id, where it has one.
    pub id: Option<Id<'a>>,
    /// Its words.
    pub words: Vec<String>,
    /// What standard input holds.
    pub source: &'a str,
}

/// Why no question was read.
#[derive(Clone, Copy, Debug, PartialEq, Eq)]
pub enum Unread {
    /// The line isn't an object of these members alone, each of a kind that a question has, or it isn't JSON.
    Other,
    /// Memory was wanting.
    Memory,
}

impl From<Invalid> for Unread {
    fn from(_: Invalid) -> Unread {
        Unread::Other
    }
}

impl From<AllocError> for Unread {
    fn from(_: AllocError) -> Unread {
        Unread::Memory
    }
}

impl<T: Drop> From<AllocFailed<T>> for Unread {
    fn from(_: AllocFailed<T>) -> Unread {
        Unread::Memory
    }
}

/// The question that a line asks, where it is an object of the members `id`, `words` and `source` alone. Others aren't read.
pub fn read_plain<'a>(
    alloc: Global,
    line: &'a [u8],
    scratch: &'a mut Scratch,
) -> Result<Plain<'a>, Unread>
    ensures { IfOk result (λ question. line_read (reading line.now) ≡ plain_seen question) }
{
    let Ok(text) = std::str::from_utf8(line) else {
        return Err(Unread::Other);
    };
    let mut reader = Reader::new(text, scratch)?;
    let Some(Token::BeginObject) = reader.next() else {
        return Err(Unread::Other);
    };
    read_members(alloc, &mut reader)
}

/// The question whose members come, up to the end of the line.
fn read_members<'a>(alloc: Global, reader: &mut Reader<'a>) -> Result<Plain<'a>, Unread>
    ensures { IfOk result (λ question. MembersAsk reader.old (plain_seen question)) }
{
    let mut id = None;
    let mut words = None;
    let mut source = "";
    'members: while let Some(name) = reader.next_key()? {
        if name == "id" {
            id = Some(read_id(reader)?);
        } else if name == "words" {
            words = Some(read_words(alloc, reader)?);
        } else if name == "source" {
            source = read_text(reader)?;
        } else {
            return Err(Unread::Other);
        }
    }
    let Some(words) = words else {
        return Err(Unread::Other);
    };
    if reader.next().is_some() {
        return Err(Unread::Other);
    }
    Ok(Plain { id, words, source })
}

/// The text that comes.
fn read_text<'a>(reader: &mut Reader<'a>) -> Result<&'a str, Unread>
    ensures { IfOk result (λ text. reader.old ≡ SpecToken.string text.now ∷ reader.new) }
{
    match reader.next() {
        Some(Token::String(text)) => Ok(text),
        _ => Err(Unread::Other),
    }
}

/// The id that comes: a number as it is printed, or a text.
fn read_id<'a>(reader: &mut Reader<'a>) -> Result<Id<'a>, Unread>
    ensures reads { IfOk result (λ id. Reads 126 reader.old reader.new (λ d. id_in d ≡ Some (id_seen id))) }
    ensures shorter { OnOk result (length reader.new < length reader.old) }
{
    let id = match reader.next() {
        Some(Token::String(text)) => id_text(text),
        Some(Token::Number(text)) => decimal_id(text),
        _ => None,
    };
    id.ok_or(Unread::Other)
}

/// The id that is a number as it is printed, and none for another spelling.
fn decimal_id<'a>(text: &str) -> Option<Id<'a>>
    ensures { IfSome result (λ id. (n : ℕ) × (number_of text.now ≡ Some (unsigned n)) × (the_id_number (Some n) ≡ Some (id_seen id))) }
{
    let Ok(n) = text.parse::<u64>() else {
        return None;
    };
    let mut buffer = Buffer::new();
    if buffer.format(n) != text {
        return None;
    }
    id_number(Some(n))
}

/// The words that come, each a text.
fn read_words(alloc: Global, reader: &mut Reader<'_>) -> Result<Vec<String>, Unread>
    ensures reads { IfOk result (λ words. Reads 126 reader.old reader.new (λ d. the_told_words (Some d) ≡ Some (map string_bytes words.items))) }
    ensures shorter { OnOk result (length reader.new < length reader.old) }
{
    let Some(Token::BeginArray) = reader.next() else {
        return Err(Unread::Other);
    };
    read_texts(alloc, reader)
}

/// The texts that come, up to the end of their list.
fn read_texts(alloc: Global, reader: &mut Reader<'_>) -> Result<Vec<String>, Unread>
    ensures reads { IfOk result (λ words. items (value 125) (length reader.old) reader.old ≡ Some (strings (map string_bytes words.items), reader.new)) }
    ensures shorter { OnOk result (length reader.new < length reader.old) }
{
    let mut words = Vec::new(alloc);
    'items: while !reader.take_end_array() {
        let text = read_text(reader)?;
        words.push(String::from_str(alloc, text)?)?;
    }
    Ok(words)
}
