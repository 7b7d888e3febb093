//! The words of the command line: `check D`, `derive [--testnet or --regtest] [--branch B] D INDEX [COUNT]`, and `update D COUNT`.

ghost use Rattle.std.specs.Prelude.{◌≡◌, ◌+◌, ◌-◌, ◌≤◌, Some, IfSome};
ghost use Rattle.std.specs.Option.{option_map};
ghost use Rattle.def_descriptor.specs.Steps.{HARDENED};
ghost use Rattle.def_descriptor_answer.specs.Words.{number_in as the_number_in, span_by as the_span_by, span_of as the_span_of, text_and_span as the_text_and_span, behind_branch as the_behind_branch, behind_network as the_behind_network, derive_of, check_of, update_of, command_of};
ghost use Rattle.descriptor_cli.specs.Scaffolding.Steps.{seen, IsAsked, span_at};

use def_address::Network;
use ms_descriptor_replies::Derivation;
use ms_text::number_spelled;
use ms_words::Word;

/// The greatest number of a branch.
const MOST_BRANCH: u64 = 15;

/// The most indices.
const MOST_COUNT: u64 = 10_000;

/// The number behind the greatest index.
const INDEX_END: u64 = 0x8000_0000;

/// What the words ask.
#[derive(Clone, Copy, Debug)]
pub enum Command<'a> {
    /// What the descriptor of a text is.
    Check(&'a str),
    /// What it gives.
    Derive(Derivation<'a>),
    /// A PSBT with what it says of the indices below a count.
    Update(&'a str, u32),
}

/// What the words ask, or `None` exactly where they ask nothing. Takes no memory.
pub fn read_words(words: &[Word]) -> Option<Command<'_>>
    ensures asked { option_map seen result ≡ command_of words.now }
    ensures form { IfSome result IsAsked }
{
    let [name, rest @ ..] = words else {
        return None;
    };
    if name.as_str() == "check" {
        return check_words(rest);
    }
    if name.as_str() == "derive" {
        return derive_words(rest);
    }
    if name.as_str() == "update" {
        return update_words(rest);
    }
    None
}

/// What the words behind `update` ask.
fn update_words(words: &[Word]) -> Option<Command<'_>>
    ensures asked { option_map seen result ≡ update_of words.now }
    ensures form { IfSome result IsAsked }
{
    match words {
        [text, count] => {
            let count = number_in(count, 1, MOST_COUNT)?;
            Some(Command::Update(text.as_str(), count as u32))
        }
        _ => None,
    }
}

/// What the words behind `check` ask.
fn check_words(words: &[Word]) -> Option<Command<'_>>
    ensures asked { option_map seen result ≡ check_of words.now }
    ensures form { IfSome result IsAsked }
{
    match words {
        [text] => Some(Command::Check(text.as_str())),
        _ => None,
    }
}

/// What the words behind `derive` ask.
fn derive_words(words: &[Word]) -> Option<Command<'_>>
    ensures asked { option_map seen result ≡ derive_of words.now }
    ensures form { IfSome result IsAsked }
{
    let [word, rest @ ..] = words else {
        return None;
    };
    if word.as_str() == "--testnet" {
        return behind_network(Some(Network::Test), rest);
    }
    if word.as_str() == "--regtest" {
        return behind_network(Some(Network::Regtest), rest);
    }
    behind_network(None, words)
}

/// What the words behind the option of a network ask: without that of a branch it is 0.
fn behind_network(network: Option<Network>, words: &[Word]) -> Option<Command<'_>>
    ensures asked { option_map seen result ≡ the_behind_network network words.now }
    ensures form { IfSome result IsAsked }
{
    let [word, rest @ ..] = words else {
        return None;
    };
    if word.as_str() == "--branch" {
        return behind_branch(network, rest);
    }
    text_and_span(network, 0, words)
}

/// What the words behind `--branch` ask.
fn behind_branch(network: Option<Network>, words: &[Word]) -> Option<Command<'_>>
    ensures asked { option_map seen result ≡ the_behind_branch network words.now }
    ensures form { IfSome result IsAsked }
{
    let [word, rest @ ..] = words else {
        return None;
    };
    let branch = number_in(word, 0, MOST_BRANCH)?;
    text_and_span(network, branch as usize, rest)
}

/// What a text and its indices ask.
fn text_and_span(network: Option<Network>, branch: usize, words: &[Word]) -> Option<Command<'_>>
    ensures asked { option_map seen result ≡ the_text_and_span network branch words.now }
    ensures form { IfSome result IsAsked }
{
    let [text, rest @ ..] = words else {
        return None;
    };
    let span = span_of(rest)?;
    Some(Command::Derive(Derivation {
        network,
        branch,
        text: text.as_str(),
        index: span.index,
        count: span.count,
    }))
}

/// From an index on, so many of them.
#[derive(Clone, Copy)]
struct Span {
    /// The first index.
    index: u32,
    /// How many indices.
    count: u32,
}

/// The indices that words name.
fn span_of(words: &[Word]) -> Option<Span>
    ensures span { option_map span_at result ≡ the_span_of words.now }
    ensures last { IfSome result (λ span. span.index + span.count ≤ HARDENED) }
{
    match words {
        [index] => span_by(index, 1),
        [index, count] => span_by(index, number_in(count, 1, MOST_COUNT)?),
        _ => None,
    }
}

/// So many indices from one on, the last of which is one too.
fn span_by(index: &Word, count: u64) -> Option<Span>
    requires { count ≤ 10000 }
    ensures span { option_map span_at result ≡ the_span_by (the_number_in 0 (HARDENED - 1) index.now) (Some count) }
    ensures last { IfSome result (λ span. span.index + span.count ≤ HARDENED) }
{
    let first = number_in(index, 0, INDEX_END - 1)?;
    if first + count > INDEX_END {
        return None;
    }
    Some(Span {
        index: first as u32,
        count: count as u32,
    })
}

/// The number that a word spells, where it is from the least on up to the most.
fn number_in(word: &Word, least: u64, most: u64) -> Option<u64>
    ensures number { result ≡ the_number_in least most word.now }
    ensures within { IfSome result (λ number. number ≤ most) }
{
    let number = number_spelled(word.as_str().as_bytes())?;
    if number < least || number > most {
        return None;
    }
    Some(number)
}
