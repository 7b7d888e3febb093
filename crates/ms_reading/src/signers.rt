//! The keys of a `multi`, which are read from the last one on.
ghost use Rattle.std.specs.Prelude.{◌≡◌, ◌+◌, ◌-◌, ◌<◌, ◌≤◌, ◌∷◌, [], length, reverse, All, IfOk};
ghost use Rattle.def_script.specs.Limits.{MAX_PUBKEYS_PER_MULTISIG};
ghost use Rattle.def_tree.specs.Range.{IsKey};
ghost use Rattle.def_tree.specs.Tree as tree;
ghost use Rattle.ms_work.specs.Scaffolding.InRange.{AreKeys-prop};

use crate::children::Numeral;
use crate::part::Part;
use bumpalo::Bump;
use ms_tree::{Key, multi};
use std::alloc::{AllocError, Global};

/// Some keys of a `multi`, and how many more stand before them: one to twenty in all.
#[derive(Drop)]
pub struct Signers {
    /// How many keys stand before these, and are still to be read.
    pub left: u64,
    /// The keys, in the order in which they were read: the last one first.
    pub keys: Vec<Key>,
    ghost some: { 1 ≤ left + length keys.items },
    ghost few: { left + length keys.items ≤ MAX_PUBKEYS_PER_MULTISIG },
    ghost are_keys: { All IsKey keys.items } by { AreKeys-prop keys.items },
}

impl Signers {
    ghost use Rattle.ms_reading.specs.Scaffolding.Parts.{tree_of};

    /// No key yet, of so many, and room for all of them.
    pub fn none(alloc: Global, count: u64) -> Result<Signers, AllocError>
        requires some { 1 ≤ count }
        requires few { count ≤ MAX_PUBKEYS_PER_MULTISIG }
        ensures left { IfOk result (λ s. s.left ≡ count) }
        ensures keys { IfOk result (λ s. s.keys.items ≡ []) }
    {
        let keys = Vec::with_capacity(alloc, count as usize)?;
        Ok(Signers { left: count, keys })
    }

    /// With one more, which stands before them.
    pub fn with(self, key: Key) -> Result<Signers, AllocError>
        requires more { 0 < self.left }
        requires key { IsKey key }
        ensures left { IfOk result (λ s. s.left ≡ self.left - 1) }
        ensures keys { IfOk result (λ s. reverse s.keys.items ≡ key ∷ reverse self.keys.items) }
    {
        let Signers { left, mut keys } = self;
        keys.push(key)?;
        Ok(Signers {
            left: left - 1,
            keys,
        })
    }

    /// The `multi` of them.
    pub fn multi<'a>(self, arena: &'a Bump<Global>, k: Numeral) -> Result<Part<'a>, AllocError>
        requires { self.left ≡ 0 }
        ensures { IfOk result (λ part. tree_of part ≡ tree.multi k.value (reverse self.keys.items)) }
    {
        let Signers { left: _, mut keys } = self;
        let measure = keys.len() as u64 + 1;
        keys.reverse();
        let tree = multi(arena, k.value, keys)?;
        Ok(Part {
            tree,
            depth: 1,
            measure,
        })
    }
}
