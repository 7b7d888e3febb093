//! The pairs of a map, one after the other.

ghost use Rattle.std.specs.Prelude.{◌≡◌};
ghost use Rattle.def_psbt.specs.Map.{map_text};
ghost use Rattle.ms_psbt.specs.Pairs.{first_pair as the_first_pair, pairs_in};
ghost use Rattle.ms_psbt.specs.Scaffolding.Pairs.{IsMapText};
ghost use Rattle.ms_psbt.specs.Seen.{IsPart};

use crate::pairs::PairRef;
use crate::parts::first_string;
use std::marker::Model;

/// The pairs of a map that are left, from the first one on, which lie in the bytes of the PSBT. Contracts see the list of the
/// pairs.
#[derive(Debug, Drop)]
pub struct Pairs<'a> {
    rest: &'a [u8],
}

impl<'a> Model for Pairs<'a> {
    ghost use Rattle.def_psbt.specs.Map.{Map};

    ghost Value = { Map };

    ghost use Rattle.ms_psbt.specs.Pairs.{pairs_in};
    ghost use Rattle.ms_psbt.specs.Scaffolding.Pairs.{IsMapText};

    ghost view = { λ p. pairs_in p.rest.now };

    ghost invariant = { λ p. IsMapText p.rest.now };
}

impl<'a> Pairs<'a> {
    /// Those of a map of which these are the bytes.
    pub(crate) fn new(bytes: &'a [u8]) -> Pairs<'a>
        requires { IsMapText bytes.now }
        ensures { result ≡ pairs_in bytes.entry.now }
    {
        Pairs { rest: bytes }
    }

    /// The bytes of what is left, with the byte 00 that ends the map: all those of the map where no pair was taken. Takes no
    /// memory.
    pub fn bytes(&self) -> &'a [u8]
        ensures { result.now ≡ map_text self.now }
    {
        self.rest
    }
}

impl<'a> Iterator for Pairs<'a> {
    ghost use Rattle.std.specs.Iterator.{YieldsFirst, item_count};

    type Item = PairRef<'a>;

    ghost next_gives = { YieldsFirst (λ pairs. pairs) };

    ghost remaining = { item_count (λ pairs. pairs) };

    fn next(&mut self) -> Option<PairRef<'a>> {
        let (pair, rest) = first_pair(self.rest)?;
        *self = Pairs { rest };
        Some(pair)
    }
}

// The pair at the front, and the bytes behind it; none where the map ends.
#[tactic(auto, unfolding(crate::specs::Pairs::first_pair))]
fn first_pair(bytes: &[u8]) -> Option<(PairRef<'_>, &[u8])>
    ensures { IsPart (λ part. (part.0, part.1.now)) result (the_first_pair bytes.now) }
{
    let (key, rest) = first_string(bytes)?;
    if key.is_empty() {
        return None;
    }
    let (value, rest) = first_string(rest)?;
    Some((PairRef::new(key, value), rest))
}
