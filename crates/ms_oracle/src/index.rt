//! A sorted index over a table of pairs, which is searched by halves.
ghost use Rattle.std.specs.Prelude.{◌≡◌, length, IfOk};
ghost use Rattle.std.specs.List.{range_with_len};
ghost use Rattle.def_machine.specs.Stacks.{member as the_member};
ghost use Rattle.ms_oracle.specs.Places.{pair_at as the_pair_at};
ghost use Rattle.ms_oracle.specs.Scaffolding.Index.{pair_cmp};

use crate::pairs::SigPair;
use std::alloc::{AllocError, Global};
use std::cmp::Ordering;
use std::marker::Model;

/// A table of pairs with its places in the order of the pairs there: by the bytes of the key, and then by those
/// of the signature. A pair may stand in the table several times. Contracts see the table.
#[derive(Drop)]
pub struct PairIndex<'a> {
    table: &'a [SigPair],
    order: Vec<usize>,
}

impl<'a> Model for PairIndex<'a> {
    ghost use Rattle.def_machine.specs.Stacks.{Pairs};
    ghost use Rattle.ms_oracle.specs.Scaffolding.Index.{IsIndex};

    ghost Value = { Pairs };

    ghost view = { λ index. index.table.now };

    ghost invariant = { λ index. IsIndex index.table.now index.order.items };
}

impl<'a> PairIndex<'a> {
    /// Sorts the places of a table, in whatever order its pairs stand. Refuses for want of memory alone.
    pub fn new(alloc: Global, table: &'a [SigPair]) -> Result<PairIndex<'a>, AllocError>
        ensures { IfOk result (λ index. index ≡ table.entry.now) }
    {
        let mut order = places_of(alloc, table)?;
        order.sort_by(|first, second| {
            let (key, sig) = pair_at(table, *second);
            compare(table, *first, key, sig)
        })?;
        Ok(PairIndex { table, order })
    }

    /// Whether the table holds the pair of this key and this signature, byte for byte. Takes no memory, and never
    /// refuses.
    pub fn holds(&self, key: &[u8], sig: &[u8]) -> bool
        ensures { result ≡ the_member self.now key.now sig.now }
    {
        let table = self.table;
        self.order
            .binary_search_by(|place| compare(table, *place, key, sig))
            .is_ok()
    }
}

/// All places of a table, counted from 0, in ascending order: what is sorted where an index over the table is wanted. Refuses
/// for want of memory alone.
pub fn places_of(alloc: Global, table: &[SigPair]) -> Result<Vec<usize>, AllocError>
    ensures { IfOk result (λ places. places.items ≡ range_with_len 0 (length table.now)) }
{
    (0..table.len()).collect(alloc)
}

/// The key and the signature at a place of a table, counted from 0; two empty strings past its end. Takes no memory, and never
/// refuses.
pub fn pair_at(table: &[SigPair], place: usize) -> (&[u8], &[u8])
    ensures { (result.0.now, result.1.now) ≡ the_pair_at table.now place }
{
    match table.get(place) {
        Some(pair) => (pair.key(), pair.sig()),
        None => (&[], &[]),
    }
}

/// Whether the pair at a place of a table comes before this pair, is it, or comes after it.
fn compare(table: &[SigPair], place: usize, key: &[u8], sig: &[u8]) -> Ordering
    ensures { result ≡ pair_cmp (the_pair_at table.now place) (key.now, sig.now) }
{
    let (first_key, first_sig) = pair_at(table, place);
    first_key.cmp(key).then(first_sig.cmp(sig))
}
