//! The items of a witness, or of pairs, as they lie in two buffers.
ghost use Rattle.std.specs.Prelude.{◌≡◌, [], length, IfOk};
ghost use Rattle.ms_calls.specs.Buffers.{written_over};
ghost use Rattle.ms_calls.specs.Items.{joined};
ghost use Rattle.ms_calls.specs.Ran.{pair_items};

use crate::copying::{write_lengths, write_over};
use ms_oracle::SigPair;
use ms_script::Stack;
use std::alloc::{AllocError, Global};
use std::marker::Model;

/// Items one after the other, and how many bytes each has. Contracts see them as both lists.
#[derive(Drop)]
pub struct Items {
    bytes: Vec<u8>,
    lengths: Vec<usize>,
}

impl Model for Items {
    ghost use Rattle.ms_calls.specs.Items.{Joined};

    ghost Value = { Joined };

    ghost view = { λ s. record { bytes = s.bytes.items; lengths = s.lengths.items } };
}

impl Items {
    /// The items of a stack, bottom first. Refuses for want of memory alone.
    pub fn new(alloc: Global, stack: &Stack) -> Result<Items, AllocError>
        ensures { IfOk result (λ items. items ≡ joined stack.now) }
    {
        let mut bytes = Vec::new(alloc);
        let mut lengths = Vec::new(alloc);
        for i in 0..stack.len() {
            let item = stack.item(i);
            bytes.extend_from_slice(item)?;
            lengths.push(item.len())?;
        }
        Ok(Items { bytes, lengths })
    }

    /// No items. Takes no memory.
    pub fn none(alloc: Global) -> Items
        ensures { result ≡ joined [] }
    {
        Items {
            bytes: Vec::new(alloc),
            lengths: Vec::new(alloc),
        }
    }

    /// The items of pairs: each key, and its signature after it. Refuses for want of memory alone.
    pub fn of_pairs(alloc: Global, pairs: &[SigPair]) -> Result<Items, AllocError>
        ensures { IfOk result (λ items. items ≡ joined (pair_items pairs.now)) }
    {
        let mut bytes = Vec::new(alloc);
        let mut lengths = Vec::new(alloc);
        for pair in pairs {
            bytes.extend_from_slice(pair.key())?;
            bytes.extend_from_slice(pair.sig())?;
            lengths.push(pair.key().len())?;
            lengths.push(pair.sig().len())?;
        }
        Ok(Items { bytes, lengths })
    }

    /// Writes as much of the bytes and of the lengths as there is room for over the beginnings of two buffers, and how many bytes
    /// and how many items there are.
    pub fn write(
        &self,
        bytes: &mut [u8],
        needed: &mut usize,
        lengths: &mut [usize],
        count: &mut usize,
    )
        ensures bytes { bytes.new ≡ written_over bytes.old self.now.bytes }
        ensures needed { needed.new ≡ length self.now.bytes }
        ensures lengths { lengths.new ≡ written_over lengths.old self.now.lengths }
        ensures count { count.new ≡ length self.now.lengths }
    {
        *needed = self.bytes.len();
        let _bytes = write_over(&self.bytes, bytes);
        *count = self.lengths.len();
        let _lengths = write_lengths(&self.lengths, lengths);
    }
}
