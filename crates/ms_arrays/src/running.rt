//! A run, in arrays.
ghost use Rattle.std.specs.Prelude.{◌≡◌, ◌≤◌, length, IfOk};
ghost use Rattle.def_files.specs.RunFile.{MOST_ELEMENTS as the_most_elements};
ghost use Rattle.ms_assets.specs.Parts.{first, IsOrMemory, Reads};
ghost use Rattle.ms_assets.specs.Runs.{run_seen};
ghost use Rattle.ms_arrays.specs.ArrayRun.{run_shape_refusals, run_of_arrays};

use crate::cutting::{KEY_SIZE, add_up_to, read_items, read_pairs};
use ms_assets::{AssetFault, MOST_ELEMENTS, MOST_SIGNATURES, Member, RunFile};
use ms_oracle::Locks;
use ms_script::Blob;
use std::alloc::{AllocError, Global};
use std::marker::Model;

/// A script, and the arrays of its run, which were lent: the items of the stack, bottom first and one after the other, with their
/// lengths; and keys of 33 bytes, one after the other, with at each place a signature of the key there, one after the other, with
/// their lengths: those that are good. Contracts see what lies in them.
#[derive(Drop)]
pub struct RunArrays<'a> {
    /// The script.
    pub script: &'a [u8],
    /// The items of the stack.
    pub items: &'a [u8],
    /// How many bytes each item has.
    pub item_lengths: &'a [usize],
    /// The keys.
    pub keys: &'a [u8],
    /// The signatures.
    pub signatures: &'a [u8],
    /// How many bytes each signature has.
    pub signature_lengths: &'a [usize],
}

impl<'a> Model for RunArrays<'a> {
    ghost use Rattle.ms_arrays.specs.ArrayRun.{RunArrays as Lent};

    ghost Value = { Lent };

    ghost view = { λ a. record {
      script = a.script.now;
      items = a.items.now;
      item_lengths = a.item_lengths.now;
      keys = a.keys.now;
      signatures = a.signatures.now;
      signature_lengths = a.signature_lengths.now;
    } };
}

impl<'a> RunArrays<'a> {
    /// The run that they give, with these values of the locks.
    ///
    /// They are refused, in this order, by the shape of the signatures where there aren't 33 bytes of keys for each length, or the
    /// lengths don't add up; the shape of the witness where its lengths don't; over 256 signatures; and over 2,000 items. Keys have
    /// any form, and signatures any length. Want of memory, `Memory`, may come in place of no refusal.
    pub fn run_file(&self, alloc: Global, locks: Locks) -> Result<RunFile, AssetFault>
        ensures run { IsOrMemory (run_of_arrays locks self.now) (run_seen result) }
        ensures few { IfOk result (λ file. length file.stack ≤ the_most_elements) }
    {
        self.check()?;
        match self.read(alloc, locks) {
            Ok(file) => Ok(file),
            Err(AllocError) => Err(AssetFault::Memory),
        }
    }

    /// Refuses arrays that haven't the lengths that are told, or hold too much.
    fn check(&self) -> Result<(), AssetFault>
        ensures { Reads (first (run_shape_refusals self.now)) (λ unit. unit) tt result }
    {
        let count = self.signature_lengths.len();
        if self.keys.len() % KEY_SIZE != 0 || self.keys.len() / KEY_SIZE != count {
            return Err(AssetFault::Shape(Member::Signatures));
        }
        if !add_up_to(self.signature_lengths, self.signatures.len()) {
            return Err(AssetFault::Shape(Member::Signatures));
        }
        if !add_up_to(self.item_lengths, self.items.len()) {
            return Err(AssetFault::Shape(Member::Witness));
        }
        if count > MOST_SIGNATURES {
            return Err(AssetFault::TooMany(Member::Signatures));
        }
        if self.item_lengths.len() > MOST_ELEMENTS {
            return Err(AssetFault::TooMany(Member::Witness));
        }
        Ok(())
    }

    /// The run of arrays that aren't refused. Refuses for want of memory alone.
    #[tactic(auto, using(crate::proofs::Steps::items_length))]
    fn read(&self, alloc: Global, locks: Locks) -> Result<RunFile, AllocError>
        requires { first (run_shape_refusals self.now) ≡ None }
        ensures run { IfOk result (λ file. run_seen (Ok file) ≡ run_of_arrays locks self.now) }
        ensures few { IfOk result (λ file. length file.stack ≤ the_most_elements) }
    {
        let script = Blob::from_slice(alloc, self.script)?;
        let stack = read_items(alloc, self.items, self.item_lengths)?;
        let pairs = read_pairs(alloc, self.keys, self.signatures, self.signature_lengths)?;
        Ok(RunFile {
            script,
            stack,
            locks,
            pairs,
        })
    }
}
