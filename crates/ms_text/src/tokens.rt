//! Tokens of a text, one at a place.
ghost use Rattle.std.specs.Prelude.{◌≡◌, ◌+◌, ◌-◌, ◌≤◌, true, false, length, take, drop, IfOk};
ghost use Rattle.std.specs.List.{list_all};
ghost use Rattle.def_text.specs.Scaffolding.Reader.{State};
ghost use Rattle.def_text.specs.Token.{is_word_byte as is_word_code};
ghost use Rattle.ms_text.specs.Scaffolding.Marks.{starts_word, begins_with, mark_code, mark_read, separator_read};
ghost use Rattle.ms_text.specs.Scaffolding.Place.{IsPlace, FirstWord, Takes, Answers, machine_from};

use def_text::TextFault;

/// A token of one character.
#[derive(Clone, Copy, Debug, PartialEq, Eq)]
pub enum Mark {
    /// `(`.
    Open,
    /// `)`.
    Close,
    /// `,`.
    Comma,
    /// `:`.
    Colon,
}

impl Mark {
    fn byte(self) -> u8
        ensures { result ≡ mark_code self }
    {
        match self {
            Mark::Open => b'(',
            Mark::Close => b')',
            Mark::Comma => b',',
            Mark::Colon => b':',
        }
    }
}

/// What stands behind one of several arguments.
#[derive(Clone, Copy, Debug, PartialEq, Eq)]
pub enum Separator {
    /// A comma: a further argument follows.
    Comma,
    /// The `)` that ends the arguments.
    Close,
}

/// Whether a byte belongs to a word: an ASCII letter, a digit or `_`.
fn is_word_byte(byte: u8) -> bool
    ensures { result ≡ is_word_code byte }
{
    byte.is_ascii_alphabetic() || byte.is_ascii_digit() || byte == b'_'
}

/// Whether a byte of a word stands at a place.
pub fn is_word_at(text: &[u8], at: usize) -> bool
    ensures { result ≡ starts_word (drop at text.now) }
{
    match text.get(at) {
        Some(&byte) => is_word_byte(byte),
        None => false,
    }
}

/// The word at a place, which is empty where another token stands there.
pub fn word_at(text: &[u8], at: usize) -> &[u8]
    requires { IsPlace text.now at }
    ensures place { IsPlace text.now (at + length result.now) }
    ensures first { FirstWord text.now at result.now }
{
    word_behind(text, at, at)
}

/// The word at a place of which the bytes up to `behind` are known.
pub fn word_behind(text: &[u8], at: usize, behind: usize) -> &[u8]
    requires after { at ≤ behind }
    requires place { IsPlace text.now behind }
    requires known { list_all is_word_code (take (behind - at) (drop at text.now)) ≡ true }
    ensures place { IsPlace text.now (at + length result.now) }
    ensures first { FirstWord text.now at result.now }
    ensures is { result.now ≡ take (length result.now) (drop at text.now) }
    ensures longer { behind ≤ at + length result.now }
    ensures whole { starts_word (drop (at + length result.now) text.now) ≡ false }
{
    let mut end = behind;
    while is_word_at(text, end) {
        end += 1;
    }
    &text[at..end]
}

/// Whether this byte stands at a place.
fn is_byte_at(text: &[u8], at: usize, byte: u8) -> bool
    ensures { result ≡ begins_with byte (drop at text.now) }
{
    match text.get(at) {
        Some(&found) => found == byte,
        None => false,
    }
}

/// The place behind a mark, which has to stand here.
pub fn behind_mark(text: &[u8], at: usize, mark: Mark) -> Result<usize, TextFault>
    requires { IsPlace text.now at }
    ensures next { IfOk result (λ end. end ≡ at + 1) }
    ensures place { IfOk result (IsPlace text.now) }
    ensures reads { (s n : State) → Takes (mark_read mark) s (λ u. n) → Answers (machine_from s text.now at) result (λ end. machine_from n text.now end) }
{
    if is_byte_at(text, at, mark.byte()) {
        return Ok(at + 1);
    }
    Err(TextFault::Syntax(at as u32))
}

/// The comma or `)` that has to stand here.
pub fn separator_at(text: &[u8], at: usize) -> Result<Separator, TextFault>
    requires { IsPlace text.now at }
    ensures place { IfOk result (λ found. IsPlace text.now (at + 1)) }
    ensures reads { (s : State) (next : Separator → State) → Takes separator_read s next → Answers (machine_from s text.now at) result (λ found. machine_from (next found) text.now (at + 1)) }
{
    if is_byte_at(text, at, b',') {
        return Ok(Separator::Comma);
    }
    if is_byte_at(text, at, b')') {
        return Ok(Separator::Close);
    }
    Err(TextFault::Syntax(at as u32))
}
