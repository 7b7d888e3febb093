//! Signatures with their keys, and the order in which the shortest of a key is found.
ghost use Rattle.std.specs.Prelude.{◌≡◌, ◌≤◌, length, [], ◌∷◌, ◌++◌, option_map, IfOk, OnOk, OnErr};
ghost use Rattle.std.specs.List.{list_any};
ghost use Rattle.std.specs.Str.{bytes_eq};
ghost use Rattle.def_assets.specs.Assets.{sigs_with, shortest as the_shortest};
ghost use Rattle.ms_held.specs.Scaffolding.Order.{rank_cmp, rank_of, IsOrder, SplitsAt, sig_under as the_sig_under, shortest_with};

use ms_oracle::{Pairs, SigPair, pair_at, places_of};
use std::alloc::{AllocError, Global};
use std::cmp::Ordering;
use std::marker::Model;

/// Up to how many signatures a walk over them costs less than an order that is searched by halves.
const FEW: usize = 16;

/// Signatures with their keys, as they were added, and where they are many, their places in the order of the bytes of the keys,
/// then of the lengths of the signatures, then of the places. Contracts see the list of the pairs.
#[derive(Debug, Drop)]
pub struct Signatures {
    alloc: Global,
    pairs: Pairs,
    order: Vec<usize>,
}

impl Model for Signatures {
    ghost use Rattle.def_machine.specs.Stacks.{Pairs as Held};
    ghost use Rattle.ms_held.specs.Scaffolding.Order.{IsOrderOfMany};

    ghost Value = { Held };

    ghost view = { λ s. s.pairs };

    ghost invariant = { λ s. IsOrderOfMany s.pairs s.order.items };
}

impl Signatures {
    /// None. Takes no memory.
    pub fn new(alloc: Global) -> Signatures
        ensures { result ≡ [] }
    {
        Signatures {
            alloc,
            pairs: Pairs::new(alloc),
            order: Vec::new(alloc),
        }
    }

    /// These, with their order where they are many, which is sorted once. Refuses for want of memory alone.
    pub fn of_pairs(alloc: Global, pairs: Pairs) -> Result<Signatures, AllocError>
        ensures { IfOk result (λ made. made ≡ pairs) }
    {
        let order = if pairs.as_slice().len() > FEW {
            order_of(alloc, pairs.as_slice())?
        } else {
            Vec::new(alloc)
        };
        Ok(Signatures {
            alloc,
            pairs,
            order,
        })
    }

    /// The pairs, in the order in which they were added. Takes no memory.
    pub fn as_slice(&self) -> &[SigPair]
        ensures { result.now ≡ self.now }
    {
        self.pairs.as_slice()
    }

    /// The shortest signature of a key, of several shortest the first: by a walk over few signatures, and by halves over many.
    /// Takes no memory.
    pub fn shortest(&self, key: &[u8]) -> Option<&[u8]>
        ensures { option_map (λ sig. sig.now) result ≡ the_shortest (sigs_with self.now key.now) }
    {
        let table = self.pairs.as_slice();
        if table.len() > FEW {
            shortest_by_halves(table, &self.order, key)
        } else {
            shortest_by_walk(table, key)
        }
    }

    /// Whether a signature is held with a key. Takes no memory.
    pub fn holds_key(&self, key: &[u8]) -> bool
        ensures { result ≡ list_any (λ pair. bytes_eq key.now pair.0) self.now }
    {
        self.shortest(key).is_some()
    }

    /// Adds a signature with its key at the end, and puts its place where it belongs where they are many. Refuses for want of
    /// memory alone; the signatures are then what they were.
    pub fn push(&mut self, key: &[u8], sig: &[u8]) -> Result<(), AllocError>
        ensures ok { OnOk result (self.new ≡ self.old ++ (key.now, sig.now) ∷ []) }
        ensures err { OnErr result (self.new ≡ self.old) }
    {
        let count = self.pairs.as_slice().len();
        if count < FEW {
            return self.pairs.push(key, sig);
        }
        if count == FEW {
            self.order = order_of(self.alloc, self.pairs.as_slice())?;
        }
        push_in_order(&mut self.pairs, &mut self.order, key, sig)
    }
}

/// The places of a table in their order. Refuses for want of memory alone.
fn order_of(alloc: Global, table: &[SigPair]) -> Result<Vec<usize>, AllocError>
    ensures { IfOk result (λ order. IsOrder table.now order.items) }
{
    let mut order = places_of(alloc, table)?;
    order.sort_unstable_by(|first, second| {
        let (key, sig) = pair_at(table, *second);
        compare(table, *first, key, sig.len(), *second)
    });
    Ok(order)
}

/// Adds a signature with its key at the end, and its place where it belongs. Refuses for want of memory alone; the pairs and
/// their order are then what they were.
fn push_in_order(
    pairs: &mut Pairs,
    order: &mut Vec<usize>,
    key: &[u8],
    sig: &[u8],
) -> Result<(), AllocError>
    requires { IsOrder pairs.old order.old.items }
    ensures ok { OnOk result (pairs.new ≡ pairs.old ++ (key.now, sig.now) ∷ []) }
    ensures err { OnErr result (pairs.new ≡ pairs.old) }
    ensures order { IsOrder pairs.new order.new.items }
{
    let table = pairs.as_slice();
    let place = table.len();
    let at = count_before(table, order, key, sig.len(), place);
    order.reserve(1)?;
    pairs.push(key, sig)?;
    if order.insert(at, place).is_err() {
        unreachable!();
    }
    Ok(())
}

/// The shortest signature of a key, of several shortest the first, by a walk over the pairs.
fn shortest_by_walk<'a>(table: &'a [SigPair], key: &[u8]) -> Option<&'a [u8]>
    ensures { option_map (λ sig. sig.now) result ≡ the_shortest (sigs_with table.entry.now key.now) }
{
    let mut found = None;
    'pairs: for pair in table {
        if has_key(pair, key) {
            found = Some(shorter(found, pair.sig()));
        }
    }
    found
}

/// Whether a pair has this key.
fn has_key(pair: &SigPair, key: &[u8]) -> bool
    ensures { result ≡ bytes_eq pair.now.0 key.now }
{
    is_same_key(pair.key(), key)
}

/// Whether two keys are the same. Few keys of a file end in the same byte, so that one is compared first.
pub fn is_same_key(first: &[u8], second: &[u8]) -> bool
    ensures { result ≡ bytes_eq first.now second.now }
{
    first.last() == second.last() && first == second
}

/// The former signature, unless there is none or the latter is shorter.
fn shorter<'a>(former: Option<&'a [u8]>, latter: &'a [u8]) -> &'a [u8]
    ensures { result.now ≡ shortest_with (option_map (λ sig. sig.now) former.entry) latter.entry.now }
{
    match former {
        Some(former) if former.len() <= latter.len() => former,
        _ => latter,
    }
}

/// The shortest signature of a key, of several shortest the first, by halves in the order of the pairs.
fn shortest_by_halves<'a>(table: &'a [SigPair], order: &[usize], key: &[u8]) -> Option<&'a [u8]>
    requires { IsOrder table.now order.now }
    ensures { option_map (λ sig. sig.now) result ≡ the_shortest (sigs_with table.entry.now key.now) }
{
    let first = count_before(table, order, key, 0, 0);
    match order.get(first) {
        Some(place) => sig_under(table, *place, key),
        None => None,
    }
}

/// Whether the pair at a place comes before a key, a length of its signature and a place, is it, or comes after it.
fn compare(table: &[SigPair], place: usize, key: &[u8], size: usize, other: usize) -> Ordering
    ensures { result ≡ rank_cmp (rank_of table.now place) (record { key = key.now; size = size; place = other }) }
{
    let (held, sig) = pair_at(table, place);
    held.cmp(key)
        .then(sig.len().cmp(&size))
        .then(place.cmp(&other))
}

/// How many places of the order come before a key, a length of its signature and a place.
fn count_before(table: &[SigPair], order: &[usize], key: &[u8], size: usize, place: usize) -> usize
    requires { IsOrder table.now order.now }
    ensures bound { result ≤ length order.now }
    ensures split { SplitsAt table.now (record { key = key.now; size = size; place = place }) order.now result }
{
    order.partition_point(|other| compare(table, *other, key, size, place).is_lt())
}

/// The signature at a place, where its key is this one.
fn sig_under<'a>(table: &'a [SigPair], place: usize, key: &[u8]) -> Option<&'a [u8]>
    ensures { option_map (λ sig. sig.now) result ≡ the_sig_under table.entry.now place key.now }
{
    let (held, sig) = pair_at(table, place);
    if held == key { Some(sig) } else { None }
}
