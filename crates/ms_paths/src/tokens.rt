//! The tokens of a text, one at a place.

ghost use Rattle.std.specs.Prelude.{◌≡◌, ◌+◌, ◌-◌, ◌<◌, ◌≤◌, [], ◌∷◌, true, false, length, take, drop, MatchOption, IfSome};
ghost use Rattle.def_descriptor.specs.Token.{token, belongs as the_belongs, is_word as the_is_word, starts};
ghost use Rattle.def_text.specs.Token.{is_word_byte as the_is_word_byte, goes_on as the_goes_on};
ghost use Rattle.ms_paths.specs.Places.{IsPlace, tokens_at, behind};

/// Whether a byte belongs to a run of letters, digits and `_`.
fn is_word_byte(byte: u8) -> bool
    ensures { result ≡ the_is_word_byte byte }
{
    byte.is_ascii_alphabetic() || byte.is_ascii_digit() || byte == b'_'
}

/// Whether a byte goes on with a character that began before it.
fn goes_on(byte: u8) -> bool
    ensures { result ≡ the_goes_on byte }
{
    0x80 <= byte && byte <= 0xbf
}

/// Whether a byte belongs to the token of the one before it.
fn belongs(before: u8, byte: u8) -> bool
    ensures { result ≡ the_belongs before (byte ∷ []) }
{
    (is_word_byte(before) && is_word_byte(byte)) || goes_on(byte)
}

/// Whether a token is a run of letters, digits and `_`.
pub fn is_word(token: &[u8]) -> bool
    ensures { result ≡ the_is_word token.now }
{
    match token {
        [byte, ..] => is_word_byte(*byte),
        [] => false,
    }
}

/// The place behind the token at a place before the end.
fn token_end(text: &[u8], at: usize) -> usize
    requires { at < length text.now }
    ensures above { at < result }
    ensures within { result ≤ length text.now }
    ensures token { tokens_at text.now at ≡ token at (take (result - at) (drop at text.now)) ∷ tokens_at text.now result }
{
    let mut end = at + 1;
    while end < text.len() {
        if !belongs(text[end - 1], text[end]) {
            return end;
        }
        end += 1;
    }
    end
}

/// The bytes of the token at a place: the end has none.
pub fn token_at(text: &[u8], at: usize) -> &[u8]
    requires { IsPlace text.now at }
    ensures token { tokens_at text.now at ≡ token at result.now ∷ behind text.now at result.now }
    ensures within { at + length result.now ≤ length text.now }
    ensures is { result.now ≡ take (length result.now) (drop at text.now) }
{
    if at == text.len() {
        return &text[at..at];
    }
    let end = token_end(text, at);
    &text[at..end]
}

/// The place behind a token of one byte, where that is the token at a place.
pub fn behind_mark(text: &[u8], at: usize, mark: u8) -> Option<usize>
    requires { IsPlace text.now at }
    ensures mark { MatchOption result (starts (mark ∷ []) (tokens_at text.now at) ≡ false)
        (λ end. (starts (mark ∷ []) (tokens_at text.now at) ≡ true) × (drop 1 (tokens_at text.now at) ≡ tokens_at text.now end)) }
    ensures place { IfSome result (IsPlace text.now) }
    ensures after { IfSome result (λ end. at < end) }
{
    match token_at(text, at) {
        [byte] => { if *byte == mark { Some(at + 1) } else { None } }
        _ => None,
    }
}

/// Whether a token of one byte stands at a place.
pub fn is_mark(text: &[u8], at: usize, mark: u8) -> bool
    requires { IsPlace text.now at }
    ensures { result ≡ starts (mark ∷ []) (tokens_at text.now at) }
{
    match behind_mark(text, at, mark) {
        Some(_) => true,
        None => false,
    }
}
