//! The reader of key expressions (BIP 380, "Key Expressions").

ghost use Rattle.std.specs.Prelude.{◌≡◌, ◌<◌, is_some, IfOk};
ghost use Rattle.std.specs.Option.{option_map};
ghost use Rattle.def_curve.specs.Key.{point_of as the_point_of};
ghost use Rattle.def_descriptor.specs.Steps.{fits as the_fits};
ghost use Rattle.def_descriptor.specs.ReadKey.{with_point, ways_behind, read_named as the_read_named, read_key as the_read_key};
ghost use Rattle.ms_derive.specs.Nodes.{version_number, extended_at};
ghost use Rattle.ms_paths.specs.Places.{IsPlace, tokens_at, Reads};
ghost use Rattle.ms_descriptor.specs.Expressions.{seen_at, named_at, expression_at};

use crate::expression::{Expression, Named, Seen};
use crate::words::{extended_word, other_word};
use def_descriptor::DescriptorFault;
use ms_curve::key::point_of;
use ms_derive::{Extended, Version};
use ms_paths::{read_origin, read_ways, token_at};
use ms_text::key_spelled;
use std::alloc::Global;

/// Whether a version is the one that was fixed, if one was.
fn fits(fixed: Option<Version>, version: Version) -> bool
    ensures { result ≡ the_fits (option_map version_number fixed) (version_number version) }
{
    match fixed {
        None => true,
        Some(Version::Xpub) => matches!(version, Version::Xpub),
        Some(Version::Tpub) => matches!(version, Version::Tpub),
    }
}

/// Whether a key has a point.
fn has_point(key: &[u8]) -> bool
    ensures { result ≡ is_some (the_point_of key.now) }
{
    match point_of(key) {
        Some(_) => true,
        None => false,
    }
}

/// The extended key at a place, whose steps stand behind it at `end`.
fn with_ways(
    alloc: Global,
    seen: Seen,
    text: &[u8],
    at: usize,
    end: usize,
    key: Extended,
) -> Result<(Named, usize), DescriptorFault>
    requires at { IsPlace text.now at }
    requires end { IsPlace text.now end }
    ensures { Reads text.now end (with_point at (the_point_of key.key) (ways_behind (seen_at seen) at (extended_at key) (tokens_at text.now end))) named_at result }
{
    if !has_point(&key.key) {
        return Err(DescriptorFault::Point(at as u32));
    }
    if !fits(seen.version, key.version) {
        return Err(DescriptorFault::Network(at as u32));
    }
    let (ways, behind) = read_ways(alloc, text, end, key.depth, seen.length)?;
    Ok((Named::Extended(key, ways), behind))
}

/// The key at a place: a compressed one, or an extended one with its steps.
fn read_named(
    alloc: Global,
    seen: Seen,
    text: &[u8],
    at: usize,
) -> Result<(Named, usize), DescriptorFault>
    requires { IsPlace text.now at }
    ensures reads { Reads text.now at (the_read_named (seen_at seen) (tokens_at text.now at)) named_at result }
    ensures some { IfOk result (λ read. at < read.1) }
{
    let word = token_at(text, at);
    let end = at + word.len();
    if let Some(key) = key_spelled(word) {
        if !has_point(key.as_bytes()) {
            return Err(DescriptorFault::Point(at as u32));
        }
        return Ok((Named::Point(key), end));
    }
    let Some(key) = extended_word(alloc, word)? else {
        return Err(other_word(at, word));
    };
    with_ways(alloc, seen, text, at, end, key)
}

/// The key expression at a place.
pub fn read_key(
    alloc: Global,
    seen: Seen,
    text: &[u8],
    at: usize,
) -> Result<(Expression, usize), DescriptorFault>
    requires { IsPlace text.now at }
    ensures reads { Reads text.now at (the_read_key (seen_at seen) (tokens_at text.now at)) expression_at result }
    ensures some { IfOk result (λ read. at < read.1) }
    ensures place { IfOk result (λ read. read.0.at ≡ at) }
{
    let (origin, place) = read_origin(alloc, text, at)?;
    let (named, end) = read_named(alloc, seen, text, place)?;
    let expression = Expression {
        at: at as u32,
        origin,
        named,
    };
    Ok((expression, end))
}
