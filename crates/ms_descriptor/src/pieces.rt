//! A miniscript with key expressions in the place of keys, in pieces.

ghost use Rattle.std.specs.Prelude.{◌≡◌, ◌<◌, ◌^◌, ◌&&◌, suc, length, IfOk, IfErr};
ghost use Rattle.def_descriptor.specs.ReadKey.{NOTHING_SEEN};
ghost use Rattle.def_descriptor.specs.Token.{is_word as the_is_word};
ghost use Rattle.def_descriptor.specs.Pieces.{follows_key, opened as the_opened, ends_at as the_ends_at, gather as the_gather};
ghost use Rattle.ms_paths.specs.Places.{IsPlace, tokens_at};
ghost use Rattle.ms_descriptor.specs.Expressions.{seen_at, spot_at};
ghost use Rattle.ms_descriptor.specs.Miniscripts.{AreWithin, gathered_at, IsNext, IsNextToken, IsNextKey};

use crate::expression::{Expression, Seen};
use crate::keys::read_key;
use crate::spots::Spot;
use def_descriptor::DescriptorFault;
use ms_paths::{is_word, token_at};
use std::alloc::Global;

/// A piece of a miniscript.
#[derive(Drop)]
pub enum Piece {
    /// A token, by its place in the text and the place behind it.
    Plain(u32, u32),
    /// A key expression.
    Key(Box<Expression>),
}

/// Pieces that were read, and what stands behind them.
#[derive(Drop)]
pub struct Gathered {
    /// The pieces.
    pub pieces: Vec<Piece>,
    /// Why a key behind them is refused, if one is.
    pub refused: Option<DescriptorFault>,
    /// The place behind them, where no key is refused.
    pub rest: usize,
}

/// How many parentheses are open behind a token.
fn opened(level: usize, token: &[u8]) -> usize
    requires { level < 2 ^ 32 }
    ensures { result ≡ the_opened level token.now }
{
    if token == b"(".as_slice() {
        return level + 1;
    }
    if token == b")".as_slice() {
        return level.saturating_sub(1);
    }
    level
}

/// Whether a token ends the pieces: the end, or the `)` that closes what they stand in.
fn ends_at(level: usize, token: &[u8]) -> bool
    ensures { result ≡ the_ends_at level token.now }
{
    token.is_empty() || (level == 0 && token == b")".as_slice())
}

/// What stands at a place of a miniscript.
#[derive(Drop)]
enum Next {
    /// A key expression, and the place behind it.
    Key(Expression, usize),
    /// A token, by the place behind it.
    Token(usize),
    /// What ends the miniscript.
    End,
    /// What is refused.
    Refused(DescriptorFault),
}

/// What stands at a place where a key has to stand.
fn next_key(alloc: Global, text: &[u8], at: usize, seen: Seen) -> Result<Next, DescriptorFault>
    requires { IsPlace text.now at }
    ensures next { IfOk result (IsNextKey text.now at (seen_at seen)) }
    ensures memory { IfErr result (λ why. why ≡ DescriptorFault.Memory) }
{
    match read_key(alloc, seen, text, at) {
        Ok((expression, end)) => Ok(Next::Key(expression, end)),
        Err(DescriptorFault::Memory) => Err(DescriptorFault::Memory),
        Err(fault) => Ok(Next::Refused(fault)),
    }
}

/// Whether a word stands right behind a key.
fn is_stuck(spot: Spot, token: &[u8]) -> bool
    ensures { result ≡ (follows_key (spot_at spot) && the_is_word token.now) }
{
    spot.follows_key() && is_word(token)
}

/// What stands at another place.
fn next_token(text: &[u8], at: usize, spot: Spot, level: usize) -> Next
    requires { IsPlace text.now at }
    ensures { IsNextToken text.now at (spot_at spot) level result }
{
    let token = token_at(text, at);
    if is_stuck(spot, token) {
        return Next::Refused(DescriptorFault::Syntax(at as u32));
    }
    if ends_at(level, token) {
        return Next::End;
    }
    Next::Token(at + token.len())
}

/// What stands at a place of a miniscript.
fn next_at(
    alloc: Global,
    text: &[u8],
    at: usize,
    spot: Spot,
    level: usize,
    seen: Seen,
) -> Result<Next, DescriptorFault>
    requires { IsPlace text.now at }
    ensures next { IfOk result (IsNext text.now at (spot_at spot) level (seen_at seen)) }
    ensures memory { IfErr result (λ why. why ≡ DescriptorFault.Memory) }
{
    if spot.takes_key() {
        return next_key(alloc, text, at, seen);
    }
    Ok(next_token(text, at, spot, level))
}

/// The pieces of the miniscript at a place: up to the `)` that closes what it stands in, to the end, or to a key that is refused.
pub fn gather(
    alloc: Global,
    text: &[u8],
    at: usize,
    spot: Spot,
) -> Result<Gathered, DescriptorFault>
    requires { IsPlace text.now at }
    ensures pieces { IfOk result (λ all. the_gather (suc (length text.now)) (spot_at spot) 0 NOTHING_SEEN (tokens_at text.now at) ≡ gathered_at text.now all) }
    ensures place { IfOk result (λ all. IsPlace text.now all.rest) }
    ensures within { IfOk result (λ all. AreWithin text.now all.pieces.items) }
    ensures memory { IfErr result (λ why. why ≡ DescriptorFault.Memory) }
{
    let mut pieces = Vec::new(alloc);
    let mut seen = Seen::nothing();
    let mut spot = spot;
    let mut level = 0;
    let mut place = at;
    loop {
        match next_at(alloc, text, place, spot, level, seen)? {
            Next::Key(expression, end) => {
                seen = seen.with(&expression);
                pieces.push(Piece::Key(Box::new(alloc, expression)?))?;
                spot = spot.behind_key();
                place = end;
            }
            Next::Token(end) => {
                let token = &text[place..end];
                level = opened(level, token);
                spot = spot.behind(token);
                pieces.push(Piece::Plain(place as u32, end as u32))?;
                place = end;
            }
            Next::End => {
                return Ok(Gathered {
                    pieces,
                    refused: None,
                    rest: place,
                });
            }
            Next::Refused(fault) => {
                return Ok(Gathered {
                    pieces,
                    refused: Some(fault),
                    rest: place,
                });
            }
        }
    }
}
