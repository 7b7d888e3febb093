//! Keys that stand twice, found by a sort of their places.

ghost use Rattle.std.specs.Prelude.{◌≡◌, ◌+◌, ◌^◌, ◌<◌, ◌≤◌, length, [], map};
ghost use Rattle.std.specs.List.Sorted.{IsStrictlyIncreasing};
ghost use Rattle.std.specs.Str.{bytes_eq};
ghost use Rattle.ms_psbt.specs.Scaffolding.Repeats.{key_at as the_key_at, first_four as the_first_four, mark_of as the_mark_of, hash_of as the_hash_of, marked as the_marked, hashed as the_hashed, AreMarked, HaveMarks, places_of, rank_cmp, rank_of, repeat_in, LeastOf, least_of as the_least_of};

use crate::pairs::string_at;
use std::cmp::Ordering;
use std::hash::{DefaultHasher, Hasher};

/// So many places lie near the processor with their keys, which are looked up quickly then, whatever their marks are.
const AT_HAND: usize = 4096;

/// What stands at places.
#[derive(Clone, Copy)]
pub enum Keys {
    /// The keys of pairs.
    Pairs,
    /// Outpoints, of 36 bytes.
    Outpoints,
}

/// A place, and the mark of the key there.
#[derive(Clone, Copy)]
pub struct Marked {
    mark: u32,
    place: u32,
}

impl Marked {
    /// A place with this key.
    pub fn new(key: &[u8], place: usize) -> Marked
        requires { place < 2 ^ 32 }
        ensures { result ≡ the_marked key.now place }
    {
        Marked {
            mark: mark_of(key),
            place: place as u32,
        }
    }
}

/// The sum of the first four bytes of a key and of its last four, as numbers of 32 bits. Keys with other marks differ; keys that
/// begin alike, or end alike, and differ, have other marks as a rule.
#[tactic(auto, unfolding(crate::specs::Scaffolding::Repeats::mark_of))]
fn mark_of(key: &[u8]) -> u32
    ensures { result ≡ the_mark_of key.now }
{
    let end = &key[key.len().saturating_sub(4)..];
    first_four(key).wrapping_add(first_four(end))
}

/// The first four bytes as a number, the first one highest; zeros stand for those that aren't there.
fn first_four(bytes: &[u8]) -> u32
    ensures { result ≡ the_first_four bytes.now }
{
    match *bytes {
        [a, b, c, d, ..] => u32::from_be_bytes([a, b, c, d]),
        [a, b, c] => u32::from_be_bytes([a, b, c, 0]),
        [a, b] => u32::from_be_bytes([a, b, 0, 0]),
        [a] => u32::from_be_bytes([a, 0, 0, 0]),
        [] => 0,
    }
}

/// The place of the outpoint that begins there.
pub fn marked_outpoint(bytes: &[u8], place: usize) -> Marked
    requires { place < 2 ^ 32 }
    ensures { result ≡ the_marked (the_key_at Keys.Outpoints bytes.now place) place }
{
    Marked::new(outpoint_at(bytes, place), place)
}

/// The key at a place; none at a place where there is none.
fn key_at(keys: Keys, bytes: &[u8], place: u32) -> &[u8]
    ensures { result.now ≡ the_key_at keys bytes.now place }
{
    match keys {
        Keys::Pairs => pair_key_at(bytes, place as usize),
        Keys::Outpoints => outpoint_at(bytes, place as usize),
    }
}

fn pair_key_at(bytes: &[u8], place: usize) -> &[u8]
    ensures { result.now ≡ the_key_at Keys.Pairs bytes.now place }
{
    if place > bytes.len() {
        return &[];
    }
    match string_at(bytes, place) {
        Ok((key, _)) => key,
        Err(_) => &[],
    }
}

fn outpoint_at(bytes: &[u8], place: usize) -> &[u8]
    ensures { result.now ≡ the_key_at Keys.Outpoints bytes.now place }
{
    if place > bytes.len() {
        return &[];
    }
    let rest = &bytes[place..];
    if rest.len() < 36 { rest } else { &rest[..36] }
}

/// The order of places by the marks of their keys, then by the keys, which are looked up only where the marks are the same.
fn compare(keys: Keys, bytes: &[u8], first: Marked, second: Marked) -> Ordering
    ensures { result ≡ rank_cmp (rank_of keys bytes.now first) (rank_of keys bytes.now second) }
{
    if first.mark != second.mark {
        return first.mark.cmp(&second.mark);
    }
    let key = key_at(keys, bytes, first.place);
    let other = key_at(keys, bytes, second.place);
    key.cmp(other).then(first.place.cmp(&second.place))
}

/// The first place whose key stands at an earlier one too. Each place has to have the mark of its key.
pub fn first_repeat(keys: Keys, bytes: &[u8], places: &mut [Marked]) -> Option<u32>
    requires up { IsStrictlyIncreasing (places_of places.old) }
    requires marks { AreMarked keys bytes.now places.old }
    ensures { result ≡ repeat_in keys bytes.now [] (places_of places.old) }
{
    mark_many(keys, bytes, places);
    places.sort_unstable_by(|first, second| compare(keys, bytes, *first, *second));
    least_repeat(keys, bytes, places)
}

/// Gives the places the hashes of their keys for marks where they are many. Keys with one mark are easily made, and each comparison
/// of two of them looks both up; another key with the hash of one takes some 2^32 trials.
fn mark_many(keys: Keys, bytes: &[u8], places: &mut [Marked])
    requires { AreMarked keys bytes.now places.old }
    ensures same { places_of places.new ≡ places_of places.old }
    ensures marks { HaveMarks keys bytes.now places.new }
{
    if places.len() > AT_HAND {
        mark_by_hash(keys, bytes, places);
    }
}

fn mark_by_hash(keys: Keys, bytes: &[u8], places: &mut [Marked])
    ensures { places.new ≡ map (the_hashed keys bytes.now) places.old }
{
    for place in places.iter_mut() {
        place.mark = hash_of(key_at(keys, bytes, place.place));
    }
}

/// SipHash-1-3 of a key, cut to 32 bits.
#[tactic(auto, unfolding(crate::specs::Scaffolding::Repeats::hash_of))]
fn hash_of(key: &[u8]) -> u32
    ensures { result ≡ the_hash_of key.now }
{
    let mut hasher = DefaultHasher::new();
    hasher.write(key);
    (hasher.finish() % (1 << 32)) as u32
}

fn least_repeat(keys: Keys, bytes: &[u8], order: &[Marked]) -> Option<u32>
    requires { HaveMarks keys bytes.now order.now }
    ensures { LeastOf keys bytes.now (places_of order.now) (length order.now) result }
{
    let mut least = None;
    for i in 1..order.len() {
        least = least_with(keys, bytes, order, i, least);
    }
    least
}

/// The least place with that at `i`, where the key there is that of the place before it in the order.
fn least_with(
    keys: Keys,
    bytes: &[u8],
    order: &[Marked],
    i: usize,
    least: Option<u32>,
) -> Option<u32>
    requires low { 1 ≤ i }
    requires high { i < length order.now }
    requires marks { HaveMarks keys bytes.now order.now }
    ensures { LeastOf keys bytes.now (places_of order.now) i least → LeastOf keys bytes.now (places_of order.now) (i + 1) result }
{
    if have_same_key(keys, bytes, order[i - 1], order[i]) {
        Some(least_of(least, order[i].place))
    } else {
        least
    }
}

/// Whether two places have the same key. Keys are looked up only where their marks are the same.
fn have_same_key(keys: Keys, bytes: &[u8], first: Marked, second: Marked) -> bool
    requires { the_key_at keys bytes.now first.place ≡ the_key_at keys bytes.now second.place → first.mark ≡ second.mark }
    ensures { result ≡ bytes_eq (the_key_at keys bytes.now first.place) (the_key_at keys bytes.now second.place) }
{
    first.mark == second.mark
        && key_at(keys, bytes, first.place) == key_at(keys, bytes, second.place)
}

fn least_of(least: Option<u32>, place: u32) -> u32
    ensures { result ≡ the_least_of least place }
{
    match least {
        Some(other) if other <= place => other,
        _ => place,
    }
}
