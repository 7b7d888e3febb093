//! Which of several places of a key is the first, found in a sorted list of all.

ghost use Rattle.std.specs.Prelude.{◌≡◌};
ghost use Rattle.std.specs.List.{All};
ghost use Rattle.std.specs.List.Sorted.{IsPermutation};
ghost use Rattle.ms_combine.specs.Scaffolding.Order.{mark_of as the_mark_of, rank_cmp, rank_of, least_rank, is_before, SplitsAt, IsMarked, IsOrder, StandsIn, IsFirst};

use crate::pairs::key_at;
use std::cmp::Ordering;
use std::hash::{DefaultHasher, Hasher};

/// A place of a pair, and the mark of the key there.
#[derive(Clone, Copy, Debug)]
pub struct Marked {
    /// The mark.
    pub mark: u32,
    /// The place.
    pub place: u32,
}

/// SipHash-1-3 of a key, cut to 32 bits. Many keys with one mark aren't easily made.
#[tactic(auto, unfolding(crate::specs::Scaffolding::Order::mark_of))]
pub fn mark_of(key: &[u8]) -> u32
    ensures { result ≡ the_mark_of key.now }
{
    let mut hasher = DefaultHasher::new();
    hasher.write(key);
    (hasher.finish() % (1 << 32)) as u32
}

/// A place with the mark of the key there.
pub fn with_mark(bytes: &[u8], place: u32) -> Marked
    ensures mark { IsMarked bytes.now result }
    ensures place { result.place ≡ place }
{
    Marked {
        mark: mark_of(key_at(bytes, place as usize)),
        place,
    }
}

/// The order of places by the marks of their keys, then by the keys, which are looked up only where the marks are the same, and
/// then by themselves.
fn compare(bytes: &[u8], first: Marked, second: Marked) -> Ordering
    ensures { result ≡ rank_cmp (rank_of bytes.now first) (rank_of bytes.now second) }
{
    if first.mark != second.mark {
        return first.mark.cmp(&second.mark);
    }
    let key = key_at(bytes, first.place as usize);
    let other = key_at(bytes, second.place as usize);
    key.cmp(other).then(first.place.cmp(&second.place))
}

/// Puts places in order.
pub fn sort_places(bytes: &[u8], places: &mut [Marked])
    requires { All (IsMarked bytes.now) places.old }
    ensures order { IsOrder bytes.now places.new }
    ensures permutation { IsPermutation places.old places.new }
{
    places.sort_unstable_by(|first, second| compare(bytes, *first, *second));
}

/// Whether a place comes before all places of a key, whose mark is given.
fn comes_before(bytes: &[u8], other: Marked, mark: u32, key: &[u8]) -> bool
    ensures { result ≡ is_before bytes.now (mark, (key.now, 0)) other }
{
    if other.mark != mark {
        return other.mark < mark;
    }
    key_at(bytes, other.place as usize).cmp(key).is_lt()
}

/// How many places of an order come before all those with the key at one.
fn count_before(bytes: &[u8], order: &[Marked], place: u32) -> usize
    requires { IsOrder bytes.now order.now }
    ensures { SplitsAt bytes.now (least_rank bytes.now place) order.now result }
{
    let key = key_at(bytes, place as usize);
    let mark = mark_of(key);
    order.partition_point(|other| comes_before(bytes, *other, mark, key))
}

/// Whether of the places of an order, of which this is one, it is the first with its key.
pub fn is_first(bytes: &[u8], order: &[Marked], place: u32) -> bool
    requires order { IsOrder bytes.now order.now }
    requires stands { StandsIn order.now place }
    ensures { IsFirst bytes.now order.now place result }
{
    match order.get(count_before(bytes, order, place)) {
        Some(first) => first.place == place,
        None => true,
    }
}
