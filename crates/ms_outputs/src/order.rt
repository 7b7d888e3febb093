//! Keys in the order of their bytes (BIP 67).

ghost use Rattle.std.specs.Prelude.{◌≡◌, ◌≤◌, ◌++◌, ◌∷◌, nat_lt, length, take, drop, IfOk};
ghost use Rattle.def_script.specs.Bytes.{IsBytes};
ghost use Rattle.def_curve.specs.Key.{number_of};
ghost use Rattle.def_descriptor.specs.Gives.{with_sorted, in_order as the_in_order};

use ms_tree::Key;
use std::alloc::{AllocError, Global};

/// Whether bytes stand before as many others: at the first place where they differ the lesser byte decides.
fn is_before(first: &[u8], other: &[u8]) -> bool
    requires long { length first.now ≡ length other.now }
    requires bytes { IsBytes first.now }
    requires others { IsBytes other.now }
    ensures { result ≡ nat_lt (number_of first.now) (number_of other.now) }
{
    for (place, byte) in first.iter().enumerate() {
        if *byte != other[place] {
            return *byte < other[place];
        }
    }
    false
}

/// Whether a key stands before another.
fn stands_before(key: &Key, other: &Key) -> bool
    ensures { result ≡ nat_lt (number_of key.now) (number_of other.now) }
{
    is_before(key.as_bytes(), other.as_bytes())
}

/// Where a key belongs among keys in order: before the first that doesn't stand before it.
fn place_among(keys: &[Key], key: &Key) -> usize
    ensures within { result ≤ length keys.now }
    ensures place { with_sorted key.now keys.now ≡ take result keys.now ++ key.now ∷ drop result keys.now }
{
    for (place, first) in keys.iter().enumerate() {
        if !stands_before(first, key) {
            return place;
        }
    }
    keys.len()
}

/// The keys in the order of their bytes.
pub fn in_order(alloc: Global, keys: &[Key]) -> Result<Vec<Key>, AllocError>
    ensures { IfOk result (λ all. all.items ≡ the_in_order keys.now) }
{
    let mut all = Vec::new(alloc);
    let mut left = keys;
    while let Some((key, before)) = left.split_last() {
        let place = place_among(&all, key);
        all.insert(place, *key)?;
        left = before;
    }
    Ok(all)
}
