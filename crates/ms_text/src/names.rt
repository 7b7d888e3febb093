//! Names of fragments and letters of wrappers (BIP 379).
ghost use Rattle.std.specs.Prelude.{◌≡◌, ◌+◌, ◌-◌, ◌≤◌, true, false, length, take, drop, is_some};
ghost use Rattle.std.specs.List.{list_all};
ghost use Rattle.std.specs.Option.{option_map};
ghost use Rattle.std.specs.Str.{bytes_eq};
ghost use Rattle.def_text.specs.Scaffolding.Reader.{FORMS, first_named, LETTERS, first_letter, letters_of};
ghost use Rattle.def_text.specs.Token.{is_word_byte};
ghost use Rattle.ms_text.specs.Scaffolding.Names.{form_of, letter_of, starts_letter, HeadIs};
ghost use Rattle.ms_text.specs.Scaffolding.Place.{IsPlace, FirstWord};

use crate::tokens::{is_word_at, word_behind};
use def_tree::{HashKind, Two, Wrapper};
use ms_tree::fragment_rows;

/// A fragment whose argument is one word.
#[derive(Clone, Copy, Debug, PartialEq, Eq)]
pub enum LeafName {
    /// `pk_k`, of a key.
    PkK,
    /// `pk_h`, of a key.
    PkH,
    /// `pk`, of a key: sugar for `c:pk_k`.
    Pk,
    /// `pkh`, of a key: sugar for `c:pk_h`.
    Pkh,
    /// `older`, of a number.
    Older,
    /// `after`, of a number.
    After,
    /// `sha256`, `hash256`, `ripemd160` or `hash160`, of a hash value.
    Hash(HashKind),
}

/// A fragment of two children.
#[derive(Clone, Copy, Debug, PartialEq, Eq)]
pub enum Pair {
    /// `and_v`, `and_b`, `or_b`, `or_c`, `or_d` or `or_i`.
    Two(Two),
    /// `and_n`: sugar for `andor(X,Y,0)`.
    AndN,
}

/// A fragment, by what its arguments are.
#[derive(Clone, Copy, Debug, PartialEq, Eq)]
pub enum Form {
    /// `0`, which has no arguments.
    Zero,
    /// `1`, which has no arguments.
    One,
    /// A fragment of one word.
    Leaf(LeafName),
    /// `andor`, of three children.
    AndOr,
    /// A fragment of two children.
    Pair(Pair),
    /// `thresh`, of a number and children.
    Thresh,
    /// `multi`, of a number and keys.
    Multi,
}

/// A letter before a colon: a wrapper, or sugar.
#[derive(Clone, Copy, Debug, PartialEq, Eq)]
pub enum Letter {
    /// A letter that is a wrapper.
    Wrapper(Wrapper),
    /// `t`: sugar for `and_v(X,1)`.
    T,
    /// `l`: sugar for `or_i(0,X)`.
    L,
    /// `u`: sugar for `or_i(X,0)`.
    U,
}

/// What a word is where an expression may begin.
#[derive(Clone, Copy, Debug, PartialEq, Eq)]
pub enum Head {
    /// The name of a fragment.
    Name(Form),
    /// Letters with a colon behind them.
    Letters,
    /// Neither: no expression begins with it.
    Neither,
}

/// Whether a word is a name.
fn is_name(word: &[u8], name: &str) -> bool
    ensures { result ≡ bytes_eq word.now name.now }
{
    word == name.as_bytes()
}

/// The value beside the first of some names that is the word.
macro_rules! value_named {
    ($word:ident { $($name:literal => $value:expr,)* }) => {
        $(if is_name($word, $name) {
            return Some($value);
        })*
    };
}

/// The fragment of the row whose name is the word.
macro_rules! rows_named {
    (
        ($word:ident)
        numbers { $([$number:ident $digit:literal $($of_number:tt)*])* }
        keys { $([$key:ident $key_name:literal $($of_key:tt)*])* }
        locks { $([$lock:ident $lock_name:literal $($of_lock:tt)*])* }
        hashes { $([$hash:ident $hash_name:literal $($of_hash:tt)*])* }
        and_or { [$and_or:ident $and_or_name:literal $($of_and_or:tt)*] }
        pairs { $([$pair:ident $pair_name:literal $($of_pair:tt)*])* }
        lists { $([$list:ident $list_name:literal $($of_list:tt)*])* }
        $($others:tt)*
    ) => {
        value_named!($word {
            $($digit => Form::$number,)*
            $($key_name => Form::Leaf(LeafName::$key),)*
            $($lock_name => Form::Leaf(LeafName::$lock),)*
            $($hash_name => Form::Leaf(LeafName::Hash(HashKind::$hash)),)*
            $and_or_name => Form::$and_or,
            $($pair_name => Form::Pair(Pair::Two(Two::$pair)),)*
            $($list_name => Form::$list,)*
        });
    };
}

/// The fragment that a word names.
pub fn form_named(word: &[u8]) -> Option<Form>
    ensures { option_map form_of result ≡ first_named word.now FORMS }
{
    value_named!(word {
        "pk" => Form::Leaf(LeafName::Pk),
        "pkh" => Form::Leaf(LeafName::Pkh),
        "and_n" => Form::Pair(Pair::AndN),
    });
    fragment_rows!(rows_named!(word));
    None
}

/// The wrapper of the row whose letter is the word.
macro_rules! wrappers_named {
    (
        ($word:ident)
        numbers $numbers:tt keys $keys:tt locks $locks:tt hashes $hashes:tt and_or $and_or:tt pairs $pairs:tt lists $lists:tt
        wrappers { $([$variant:ident $letter:literal $($of_wrapper:tt)*])* }
    ) => {
        value_named!($word {
            $($letter => Letter::Wrapper(Wrapper::$variant),)*
        });
    };
}

/// The letter that a byte spells.
pub fn letter_named(byte: u8) -> Option<Letter>
    ensures { option_map letter_of result ≡ first_letter byte LETTERS }
{
    let bytes = [byte];
    let word = bytes.as_slice();
    fragment_rows!(wrappers_named!(word));
    value_named!(word {
        "t" => Letter::T,
        "l" => Letter::L,
        "u" => Letter::U,
    });
    None
}

/// Whether a letter stands at a place.
fn is_letter_at(text: &[u8], at: usize) -> bool
    ensures { result ≡ starts_letter (drop at text.now) }
{
    match text.get(at) {
        Some(&byte) => letter_named(byte).is_some(),
        None => false,
    }
}

/// The place behind the letters that stand here.
fn behind_letters(text: &[u8], at: usize) -> usize
    requires { IsPlace text.now at }
    ensures after { at ≤ result }
    ensures place { IsPlace text.now result }
    ensures word { list_all is_word_byte (take (result - at) (drop at text.now)) ≡ true }
    ensures letters { is_some (letters_of (take (result - at) (drop at text.now))) ≡ true }
    ensures whole { starts_letter (drop result text.now) ≡ false }
{
    let mut end = at;
    while is_letter_at(text, end) {
        end += 1;
    }
    end
}

/// The word at which an expression may begin, and what it is.
#[derive(Clone, Copy)]
pub struct Heading<'t> {
    /// Empty where another token stands there.
    pub word: &'t [u8],
    /// What the word is.
    pub head: Head,
}

/// What stands at a place where an expression may begin: letters, or else the name of a fragment.
pub fn heading_at(text: &[u8], at: usize) -> Heading<'_>
    requires { IsPlace text.now at }
    ensures place { IsPlace text.now (at + length result.word.now) }
    ensures first { FirstWord text.now at result.word.now }
    ensures head { HeadIs result.head result.word.now }
{
    let behind = behind_letters(text, at);
    if !is_word_at(text, behind) {
        let word = &text[at..behind];
        return Heading {
            word,
            head: head_of_letters(word),
        };
    }
    let word = word_behind(text, at, behind);
    Heading {
        word,
        head: head_of_name(word),
    }
}

/// What a word of letters is, or an empty one.
fn head_of_letters(word: &[u8]) -> Head
    requires { is_some (letters_of word.now) ≡ true }
    ensures { HeadIs result word.now }
{
    if word.is_empty() {
        Head::Neither
    } else {
        Head::Letters
    }
}

/// What a word is that has a byte other than a letter.
fn head_of_name(word: &[u8]) -> Head
    requires { letters_of word.now ≡ None }
    ensures { HeadIs result word.now }
{
    match form_named(word) {
        Some(form) => Head::Name(form),
        None => Head::Neither,
    }
}
