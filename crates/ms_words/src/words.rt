//! The forms of words.
ghost use Rattle.std.specs.Prelude.{◌≡◌, ◌≢◌, ℕ, [], ◌∷◌, codes, decimal, All, IsTrue, ◌↔◌, MatchOption, IfSome, IsSome};
ghost use Rattle.std.specs.List.{list_all};
ghost use Rattle.hex.specs.Hex.{is_hex_digit};
ghost use Rattle.def_text.specs.Word.{key_of as the_key_of};
ghost use Rattle.def_answer.specs.Words.{IsHex, IsCommand, IsForm, HasNoForm, gen};
ghost use Rattle.ms_words.specs.Commands.{seen, FindsForm, HasUtf8};

use crate::word::Word;
use def_choice::Choice;
use def_sane::Rules;
use itoa::Buffer;

/// The greatest number of `gen`.
const MOST_CHILDREN: u32 = 30;

/// What is asked of a text, which has to be valid or sane by these rules.
#[derive(Clone, Copy, Debug, PartialEq, Eq)]
pub enum TextCommand {
    /// `script`: its Script.
    Script(Rules),
    /// `asm`: the instructions of its Script, with the node that wrote each.
    Asm(Rules),
    /// `tree`: the nodes of its tree, each with its type, whether or not it is sane.
    Tree(Rules),
    /// `check`: what is known of it.
    Check(Rules),
    /// `satisfy`: the satisfaction by the assets of a file that is chosen so.
    Satisfy(Choice, Rules),
    /// `policy`: its abstract policy.
    Policy,
    /// `plan`: which keys to ask, by a plan file.
    Plan,
    /// `audit`: by which rows the stack of a run file satisfies it.
    Audit,
    /// `trace`: the trace of the run of a run file that has its Script.
    Trace,
}

/// What the words ask for: something of a TEXT, a run or its trace, a text that is made from a number, or the text of a Script.
#[derive(Clone, Copy, Debug)]
pub enum Command<'a> {
    /// What is asked of a TEXT, and the TEXT.
    Text(TextCommand, &'a str),
    /// `run`: the run of a file's script.
    Run,
    /// `trace`: the trace of the run of a file's script.
    Trace,
    /// `gen`: the text and the assets that are made from this number, 1 to 30.
    Gen(u32),
    /// The digits of a Script, and the words of the keys.
    Decode(&'a str, &'a [Word]),
}

/// What the words ask for, or `None` where they have no form. Takes no memory.
pub fn read_words(words: &[Word]) -> Option<Command<'_>>
    ensures form { MatchOption result (HasNoForm words.now) (λ command. IsForm words.now (seen command)) }
    ensures utf8 { IfSome result (λ command. HasUtf8 (seen command)) }
{
    match words {
        [] => None,
        [name] => one_word(name.as_str()),
        [name, word, more @ ..] => several_words(name.as_str(), word.as_str(), more),
    }
}

fn one_word<'a>(name: &str) -> Option<Command<'a>>
    ensures form { FindsForm (name.now ∷ []) result }
    ensures utf8 { IfSome result (λ command. HasUtf8 (seen command)) }
{
    if name == "run" {
        return Some(Command::Run);
    }
    if name == "trace" {
        return Some(Command::Trace);
    }
    None
}

fn several_words<'a>(name: &str, word: &'a str, more: &'a [Word]) -> Option<Command<'a>>
    ensures form { FindsForm (name.now ∷ word.entry.now ∷ more.entry.now) result }
    ensures utf8 { IfSome result (λ command. HasUtf8 (seen command)) }
{
    if name == "decode" {
        return decode_words(word, more);
    }
    match more {
        [] => two_words(name, word),
        [text] => three_words(name, word, text.as_str()),
        [option, text] => four_words(name, word, option.as_str(), text.as_str()),
        _ => None,
    }
}

fn two_words<'a>(name: &str, word: &'a str) -> Option<Command<'a>>
    requires { name.now ≢ codes "decode" }
    ensures form { FindsForm (name.now ∷ word.entry.now ∷ []) result }
    ensures utf8 { IfSome result (λ command. HasUtf8 (seen command)) }
{
    if name == "script" {
        return Some(Command::Text(TextCommand::Script(Rules::Policy), word));
    }
    if name == "asm" {
        return Some(Command::Text(TextCommand::Asm(Rules::Policy), word));
    }
    if name == "tree" {
        return Some(Command::Text(TextCommand::Tree(Rules::Policy), word));
    }
    if name == "check" {
        return Some(Command::Text(TextCommand::Check(Rules::Policy), word));
    }
    if name == "satisfy" {
        return Some(Command::Text(TextCommand::Satisfy(Choice::Strict, Rules::Policy), word));
    }
    if name == "gen" {
        return Some(Command::Gen(read_number(word)?));
    }
    if name == "policy" {
        return Some(Command::Text(TextCommand::Policy, word));
    }
    if name == "plan" {
        return Some(Command::Text(TextCommand::Plan, word));
    }
    if name == "audit" {
        return Some(Command::Text(TextCommand::Audit, word));
    }
    if name == "trace" {
        return Some(Command::Text(TextCommand::Trace, word));
    }
    None
}

/// The number of `gen`, from 1 to 30. It is written without a sign or a leading zero.
fn read_number(word: &str) -> Option<u32>
    ensures { MatchOption result ((n : ℕ) → IsCommand (gen n) → word.now ≢ decimal n) (λ n. IsCommand (gen n) × (word.now ≡ decimal n)) }
{
    let Ok(n) = word.parse::<u32>() else {
        return None;
    };
    if n < 1 || n > MOST_CHILDREN {
        return None;
    }
    if !is_decimal(n, word) {
        return None;
    }
    Some(n)
}

/// Whether a number is written so.
fn is_decimal(n: u32, word: &str) -> bool
    ensures { IsTrue result ↔ (word.now ≡ decimal n) }
{
    let mut buffer = Buffer::new();
    buffer.format(n) == word
}

fn three_words<'a>(name: &str, option: &str, text: &'a str) -> Option<Command<'a>>
    requires { name.now ≢ codes "decode" }
    ensures form { FindsForm (name.now ∷ option.now ∷ text.entry.now ∷ []) result }
    ensures utf8 { IfSome result (λ command. HasUtf8 (seen command)) }
{
    if name == "satisfy" && option == "--malleable" {
        return Some(Command::Text(TextCommand::Satisfy(Choice::Cheapest, Rules::Policy), text));
    }
    if option == "--consensus" {
        return consensus_words(name, text);
    }
    None
}

fn consensus_words<'a>(name: &str, text: &'a str) -> Option<Command<'a>>
    requires { name.now ≢ codes "decode" }
    ensures form { FindsForm (name.now ∷ codes "--consensus" ∷ text.entry.now ∷ []) result }
    ensures utf8 { IfSome result (λ command. HasUtf8 (seen command)) }
{
    let rules = Rules::Consensus;
    if name == "script" {
        return Some(Command::Text(TextCommand::Script(rules), text));
    }
    if name == "asm" {
        return Some(Command::Text(TextCommand::Asm(rules), text));
    }
    if name == "tree" {
        return Some(Command::Text(TextCommand::Tree(rules), text));
    }
    if name == "check" {
        return Some(Command::Text(TextCommand::Check(rules), text));
    }
    if name == "satisfy" {
        return Some(Command::Text(TextCommand::Satisfy(Choice::Strict, rules), text));
    }
    None
}

fn four_words<'a>(name: &str, first: &str, second: &str, text: &'a str) -> Option<Command<'a>>
    requires { name.now ≢ codes "decode" }
    ensures form { FindsForm (name.now ∷ first.now ∷ second.now ∷ text.entry.now ∷ []) result }
    ensures utf8 { IfSome result (λ command. HasUtf8 (seen command)) }
{
    if name == "satisfy" && first == "--malleable" && second == "--consensus" {
        return Some(Command::Text(
            TextCommand::Satisfy(Choice::Cheapest, Rules::Consensus),
            text,
        ));
    }
    None
}

fn decode_words<'a>(digits: &'a str, keys: &'a [Word]) -> Option<Command<'a>>
    ensures form { FindsForm (codes "decode" ∷ digits.entry.now ∷ keys.entry.now) result }
    ensures utf8 { IfSome result (λ command. HasUtf8 (seen command)) }
{
    if !is_hex(digits.as_bytes()) {
        return None;
    }
    if !are_keys(keys) {
        return None;
    }
    Some(Command::Decode(digits, keys))
}

/// Whether there is an even number of digits, and nothing else.
fn is_hex(digits: &[u8]) -> bool
    ensures { IsTrue result ↔ IsHex digits.now }
{
    if digits.len() % 2 == 1 {
        return false;
    }
    are_digits(digits)
}

/// Whether each byte is a hexadecimal digit of either case.
fn are_digits(bytes: &[u8]) -> bool
    ensures { result ≡ list_all is_hex_digit bytes.now }
{
    for &byte in bytes {
        if !is_digit(byte) {
            return false;
        }
    }
    true
}

/// Whether a byte is a hexadecimal digit of either case.
fn is_digit(digit: u8) -> bool
    ensures { result ≡ is_hex_digit digit }
{
    matches!(digit, b'0'..=b'9' | b'a'..=b'f' | b'A'..=b'F')
}

/// Whether each word spells a key.
fn are_keys(words: &[Word]) -> bool
    ensures { IsTrue result ↔ All (λ word. IsSome (the_key_of word)) words.now }
{
    for word in words {
        if word.key().is_none() {
            return false;
        }
    }
    true
}
