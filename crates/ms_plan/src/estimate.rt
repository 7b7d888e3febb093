//! The stored estimate: a table of lengths, and the closure that answers for it.
ghost use Rattle.std.specs.Prelude.{◌≡◌, ℕ, ◌++◌, [], ◌∷◌, Some, IfOk, OnOk};
ghost use Rattle.def_plan.specs.Lengths.{AreLengths, length_of};
ghost use Rattle.ms_plan.specs.Estimates.{AnswersFor, IsSound, table_of as the_table};

use ms_plan_file::{KeyLength, KeyLengths};
use ms_tree::Key;
use std::alloc::{AllocError, Global};
use std::marker::Model;

/// A table of keys that can sign with the estimated lengths of their signatures, and a closure that answers for it: the
/// length of a key, or `None` without an entry. Contracts see the pair of the table and the closure.
///
/// That the table has at most 256 entries, no key twice and lengths of 1 to 73 bytes, and that the closure answers so, is
/// the condition of `new`, and stays true of the estimate: each call that takes one has it as a condition of its own.
#[derive(Drop)]
pub struct Estimate<'a, F: Fn(&Key) -> Option<u8>> {
    table: &'a [KeyLength],
    estimate: F,
}

impl<'a, F: Fn(&Key) -> Option<u8>> Model for Estimate<'a, F> {
    ghost use Rattle.def_plan.specs.Lengths.{Lengths};

    ghost Value = { Lengths × F };

    ghost view = { λ e. (e.table.now, e.estimate) };
}

impl<'a, F: Fn(&Key) -> Option<u8>> Estimate<'a, F> {
    /// Stores a closure that answers for a table. Takes no memory, and never refuses.
    pub fn new(table: &'a [KeyLength], estimate: F) -> Estimate<'a, F>
        requires lengths { AreLengths table.now }
        requires answers { AnswersFor F.Fn table.now estimate }
        ensures table { the_table result ≡ table.entry.now }
        ensures sound { IsSound F.Fn result }
    {
        Estimate { table, estimate }
    }

    /// The estimated length of a key's signature, in bytes, as the closure answers; `None` exactly where the table has no
    /// entry of the key. Takes no memory, and never refuses.
    pub fn ask(&self, key: &Key) -> Option<u8>
        requires { IsSound F.Fn self.now }
        ensures { result ≡ length_of (the_table self.now) key.now }
    {
        // Its clause tells what a key always is.
        let _bytes = key.as_bytes();
        (self.estimate)(key)
    }

    /// Each key of the table with the length that the closure answers: the table. Refuses for want of memory alone.
    pub(crate) fn answers(&self, alloc: Global) -> Result<KeyLengths, AllocError>
        requires { IsSound F.Fn self.now }
        ensures { IfOk result (λ answers. answers ≡ the_table self.now) }
    {
        let table = self.table();
        let mut answers = Vec::new(alloc);
        for entry in table {
            self.push_answer(entry, &mut answers)?;
        }
        Ok(KeyLengths::from_vec(answers))
    }

    /// Adds the key of an entry with the length that the closure answers.
    fn push_answer(&self, entry: &KeyLength, answers: &mut Vec<KeyLength>) -> Result<(), AllocError>
        requires { IsSound F.Fn self.now }
        ensures { OnOk result ((n : ℕ) → length_of (the_table self.now) entry.now.0 ≡ Some n → answers.new.items ≡ answers.old.items ++ (entry.now.0, n) ∷ []) }
    {
        let key = entry.key;
        match self.ask(&key) {
            Some(length) => {
                answers.push(KeyLength { key, length })?;
                Ok(())
            }
            None => Ok(()),
        }
    }

    /// The table.
    fn table(&self) -> &[KeyLength]
        ensures { result.now ≡ the_table self.now }
    {
        self.table
    }
}
