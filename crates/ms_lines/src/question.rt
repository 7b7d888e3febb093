//! What a line asks.
ghost use Rattle.std.specs.Prelude.{◌≡◌, codes, map, option_map, IfOk};
ghost use Rattle.std.specs.List.{list_all};
ghost use Rattle.std.specs.String.{string_bytes};
ghost use Rattle.serde_json.specs.Find.{get};
ghost use Rattle.serde_json.specs.View.{view};
ghost use Rattle.def_files.specs.Parts.{is_text};
ghost use Rattle.def_lines.specs.Question.{is_plain as the_is_plain, id_in as the_id_in, id_number as the_id_number, id_text as the_id_text, told_id as the_told_id, text_in, told_words as the_told_words, told_source as the_told_source, line_in};
ghost use Rattle.ms_lines.specs.Seen.{ids_seen, line_seen};

use def_lines::{LineFault, Part};
use serde_json::Value;
use std::alloc::{AllocError, Global};

/// The greatest number that an id may be.
const MOST_ID: u64 = 9_007_199_254_740_991;

/// How many characters an id may have.
const MOST_ID_LENGTH: usize = 256;

/// An id, by which whoever asks tells the answer.
#[derive(Clone, Copy, Debug)]
pub enum Id<'a> {
    /// A whole number from 0 to 2^53 - 1.
    Whole(u64),
    /// At most 256 characters from space to `~`, without `"` and `\`.
    Text(&'a str),
}

/// A question, whose parts lie in the value of its line.
#[derive(Clone, Copy)]
pub struct Question<'a> {
    /// Its id, where it has one.
    pub id: Option<Id<'a>>,
    /// Its words, each of them a string.
    pub words: &'a [Value],
    /// What standard input holds.
    pub source: &'a str,
}

/// What a line asks, or why it is refused.
#[derive(Clone, Copy)]
pub enum Asked<'a> {
    /// A question.
    Question(Question<'a>),
    /// It is none. Its id is told where it was read.
    Refused(Option<Id<'a>>, LineFault),
}

/// What the value of a line asks. Takes no memory.
pub fn read_question(line: &Value) -> Asked<'_>
    ensures { line_seen result ≡ line_in (view line.now) }
{
    if !line.is_object() {
        return Asked::Refused(None, LineFault::Shape(Part::Line));
    }
    let Some(id) = told_id(line) else {
        return Asked::Refused(None, LineFault::Shape(Part::Id));
    };
    let Some(words) = told_words(line) else {
        return Asked::Refused(id, LineFault::Shape(Part::Words));
    };
    let Some(source) = told_source(line) else {
        return Asked::Refused(id, LineFault::Shape(Part::Source));
    };
    Asked::Question(Question { id, words, source })
}

/// The id of a line, which may have none, or `None` where it has one of another kind.
fn told_id(line: &Value) -> Option<Option<Id<'_>>>
    ensures { option_map ids_seen result ≡ the_told_id (get (codes "id") (view line.now)) }
{
    match line.get("id") {
        None => Some(None),
        Some(value) => match id_in(value) {
            Some(id) => Some(Some(id)),
            None => None,
        },
    }
}

/// The id that a value is.
fn id_in(value: &Value) -> Option<Id<'_>>
    ensures { ids_seen result ≡ the_id_in (view value.now) }
{
    match value.as_str() {
        Some(text) => id_text(text),
        None => id_number(value.as_u64()),
    }
}

/// The id that a number is.
pub fn id_number<'a>(number: Option<u64>) -> Option<Id<'a>>
    ensures { ids_seen result ≡ the_id_number number }
{
    match number {
        Some(n) if n <= MOST_ID => Some(Id::Whole(n)),
        _ => None,
    }
}

/// The id that a text is.
pub fn id_text(text: &str) -> Option<Id<'_>>
    ensures { ids_seen result ≡ the_id_text text.now }
{
    if text.len() <= MOST_ID_LENGTH && are_plain(text.as_bytes()) {
        return Some(Id::Text(text));
    }
    None
}

fn are_plain(bytes: &[u8]) -> bool
    ensures { result ≡ list_all the_is_plain bytes.now }
{
    for &byte in bytes {
        if !is_plain(byte) {
            return false;
        }
    }
    true
}

/// Whether JSON writes a character as it is: one from space to `~` that is neither `"` nor `\`.
fn is_plain(byte: u8) -> bool
    ensures { result ≡ the_is_plain byte }
{
    32 <= byte && byte <= 126 && byte != b'"' && byte != b'\\'
}

/// The words of a line, or `None` where it has none, or where they are no list of strings.
fn told_words(line: &Value) -> Option<&[Value]>
    ensures { option_map (λ words. map text_in (map view words.now)) result ≡ the_told_words (get (codes "words") (view line.now)) }
{
    let value = line.get("words")?;
    let elements = value.as_array()?;
    let elements = elements.as_slice();
    if !are_texts(elements) {
        return None;
    }
    Some(elements)
}

fn are_texts(elements: &[Value]) -> bool
    ensures { result ≡ list_all is_text (map view elements.now) }
{
    for element in elements {
        if !element.is_string() {
            return false;
        }
    }
    true
}

/// What standard input holds, nothing where the line has no source, or `None` where it is no string.
fn told_source(line: &Value) -> Option<&str>
    ensures { option_map (λ source. source.now) result ≡ the_told_source (get (codes "source") (view line.now)) }
{
    match line.get("source") {
        None => Some(""),
        Some(value) => value.as_str(),
    }
}

/// The words of a question, as texts of their own.
pub fn copy_words(alloc: Global, words: &[Value]) -> Result<Vec<String>, AllocError>
    ensures { IfOk result (λ copied. map string_bytes copied.items ≡ map text_in (map view words.now)) }
{
    let mut copied = Vec::with_capacity(alloc, words.len())?;
    for word in words {
        let text = word.as_str().unwrap_or("");
        copied.push(String::from_str(alloc, text)?)?;
    }
    Ok(copied)
}
