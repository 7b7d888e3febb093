//! The stored check: a table of good signatures, and the closure that answers for it.
ghost use Rattle.std.specs.Prelude.{◌≡◌};
ghost use Rattle.def_machine.specs.Stacks.{member as the_member};
ghost use Rattle.ms_oracle.specs.Sound.{table_of, AnswersFor, IsSound};

use crate::checker::SignatureChecker;
use crate::pairs::SigPair;
use std::marker::Model;

/// A table of signatures and a closure that answers true exactly for its pairs. It stands for the signature
/// checks of Bitcoin Core's `CheckSig`, of which an interpreter knows only which pairs of a key and a
/// signature are good. Contracts see the pair of the table and the closure.
///
/// That the closure does so is the condition of `new`, and stays true of the check: each call that takes
/// one has it as a condition of its own.
#[derive(Drop)]
pub struct SigCheck<'a, F: Fn(&[u8], &[u8]) -> bool> {
    table: &'a [SigPair],
    check: F,
}

impl<'a, F: Fn(&[u8], &[u8]) -> bool> Model for SigCheck<'a, F> {
    ghost use Rattle.def_machine.specs.Stacks.{Pairs};

    ghost Value = { Pairs × F };

    ghost view = { λ s. (s.table.now, s.check) };
}

impl<'a, F: Fn(&[u8], &[u8]) -> bool> SigCheck<'a, F> {
    /// Stores a closure that answers for a table, whatever the order of its pairs. Takes no memory, and never
    /// refuses.
    pub fn new(table: &'a [SigPair], check: F) -> SigCheck<'a, F>
        requires { AnswersFor F.Fn table.now check }
        ensures table { table_of result ≡ table.entry.now }
        ensures sound { IsSound F.Fn result }
    {
        SigCheck { table, check }
    }
}

impl<'a, F: Fn(&[u8], &[u8]) -> bool> SignatureChecker for SigCheck<'a, F> {
    ghost checker = { λ sigs. the_member (table_of sigs) };

    ghost IsSound = { λ sigs. IsSound F.Fn sigs };

    /// Whether the table holds the pair of this key and this signature, byte for byte, as the closure answers.
    /// Takes no memory, and never refuses.
    fn ask(&self, key: &[u8], sig: &[u8]) -> bool {
        (self.check)(key, sig)
    }
}
