//! Stacks of byte strings, bottom first.

ghost use Rattle.std.specs.Prelude.{◌≡◌, ◌^◌, ◌<◌, ◌≤◌, List, [], ◌∷◌, ◌++◌, length, slice_index_or, OnOk, OnErr};
ghost use Rattle.def_script.specs.Witness.{weight as the_weight};

use crate::blob::Blob;
use std::alloc::{AllocError, Global};
use std::marker::Model;

/// A stack of byte strings. Contracts see it as a list of byte lists, bottom first.
#[derive(Debug, Drop)]
pub struct Stack {
    alloc: Global,
    items: Vec<Blob>,
}

impl Model for Stack {
    ghost use Rattle.std.specs.Prelude.{List};
    ghost use Rattle.def_script.specs.Bytes.{Bytes};

    ghost Value = { List Bytes };

    ghost view = { λ s. s.items.items };
}

impl Stack {
    /// An empty stack. Takes no memory.
    pub fn new(alloc: Global) -> Stack
        ensures { result ≡ [] }
    {
        Stack {
            alloc,
            items: Vec::new(alloc),
        }
    }

    /// Adds a copy of the bytes on top. Where memory is wanting it answers `AllocError`, and nothing changes.
    pub fn push(&mut self, bytes: &[u8]) -> Result<(), AllocError>
        ensures ok { OnOk result (self.new ≡ self.old ++ bytes.now ∷ []) }
        ensures err { OnErr result (self.new ≡ self.old) }
    {
        let item = Blob::from_slice(self.alloc, bytes)?;
        self.push_blob(item)
    }

    /// Adds an item on top, which it takes over. Where memory is wanting it answers `AllocError`, and nothing changes.
    pub fn push_blob(&mut self, item: Blob) -> Result<(), AllocError>
        ensures ok { OnOk result (self.new ≡ self.old ++ item ∷ []) }
        ensures err { OnErr result (self.new ≡ self.old) }
    {
        self.items.push(item)?;
        Ok(())
    }

    /// How many items there are.
    pub fn len(&self) -> usize
        ensures { result ≡ length self.now }
    {
        self.items.len()
    }

    /// The item at a place, counted from 0 at the bottom. It demands that there is one.
    pub fn item(&self, i: usize) -> &[u8]
        requires { i < length self.now }
        ensures { result.now ≡ slice_index_or self.now i [] }
    {
        self.items[i].as_slice()
    }

    /// The stack's weight in a witness, in bytes: the sum over the items of 1 plus the item's length, which are as many
    /// as BIP 141 counts for items of up to 252 bytes. It demands that the sum is at most 2^40.
    pub fn weight(&self) -> u64
        requires { the_weight self.now ≤ 2 ^ 40 }
        ensures { result ≡ the_weight self.now }
    {
        let mut total = 0;
        for item in &self.items {
            total += 1 + item.as_slice().len() as u64;
        }
        total
    }
}
