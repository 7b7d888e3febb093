//! The id that a transaction has with its final scriptSigs.
ghost use Rattle.std.specs.Prelude.{◌≡◌, [], ◌∷◌, ◌++◌, List, length, OnOk};
ghost use Rattle.def_psbt.specs.Transaction.{Transaction, input_text};
ghost use Rattle.def_script.specs.Bytes.{Bytes};
ghost use Rattle.def_spend.specs.Finalized.{final_id as the_final_id};
ghost use Rattle.def_spend.specs.Input.{Spend};
ghost use Rattle.sha2.specs.Hashers.{Holds256};
ghost use Rattle.ms_psbt_report.specs.Scaffolding.FinalIds.{IsIdOf};

use ms_hash::sha256;
use ms_input::Input;
use ms_script::compact_size;
use ms_transaction::TransactionRef;
use sha2::{Digest, Sha256};
use std::alloc::{AllocError, Global};

/// The id of a transaction with the final scriptSigs of its inputs, hashed input by input: no scriptSig is kept.
#[derive(Drop)]
pub struct FinalId {
    /// It holds the version, the number of inputs, and those inputs that were added.
    pub hasher: Sha256,
    /// Whether the final scriptSig of each of them is known.
    pub are_known: bool,
    /// Whether one that is known has a byte.
    pub has_script_sig: bool,
}

impl FinalId {
    /// That of a transaction of which no input was added.
    pub fn new(transaction: &TransactionRef<'_>) -> FinalId
        ensures { IsIdOf transaction.now [] result }
    {
        let mut hasher = Sha256::new();
        hasher.update(transaction.version().to_le_bytes());
        hasher.update(compact_size(transaction.input_count()).as_slice());
        FinalId {
            hasher,
            are_known: true,
            has_script_sig: false,
        }
    }

    /// Adds the next input with its final scriptSig. Refuses for want of memory alone.
    pub fn add(&mut self, alloc: Global, input: &Input<'_, '_>) -> Result<(), AllocError>
        ensures { (transaction : Transaction) (spends : List Spend) → IsIdOf transaction spends self.old → OnOk result (IsIdOf transaction (spends ++ input.now.spend ∷ []) self.new) }
    {
        match input.known_script_sig(alloc)? {
            Some(script_sig) => {
                self.has_script_sig = self.has_script_sig || !script_sig.is_empty();
                self.hash_input(input, script_sig.as_slice());
            }
            None => {
                self.are_known = false;
                self.hash_input(input, &[]);
            }
        }
        Ok(())
    }

    // Hashes what the transaction says of an input, with this scriptSig.
    #[tactic(auto, unfolding(def_psbt::specs::Transaction::input_text))]
    fn hash_input(&mut self, input: &Input<'_, '_>, script_sig: &[u8])
        ensures hashed { (bytes : Bytes) → Holds256 self.old.hasher bytes → Holds256 self.new.hasher (bytes ++ input_text (record input.now.spend.input { script_sig = script_sig.now })) }
        ensures are_known { self.new.are_known ≡ self.old.are_known }
        ensures has_script_sig { self.new.has_script_sig ≡ self.old.has_script_sig }
    {
        let outpoint = input.outpoint();
        self.hasher.update(outpoint.id());
        self.hasher.update(outpoint.index().to_le_bytes());
        self.hasher
            .update(compact_size(script_sig.len() as u64).as_slice());
        self.hasher.update(script_sig);
        self.hasher.update(outpoint.sequence().to_le_bytes());
    }

    /// The id, where each final scriptSig is known and one has a byte. It demands that all inputs of the transaction were added.
    #[tactic(auto, unfolding(def_hash::specs::Hash::hash256))]
    pub fn finish(self, transaction: &TransactionRef<'_>) -> Option<[u8; 32]>
        ensures { (spends : List Spend) → IsIdOf transaction.now spends self → length spends ≡ length transaction.now.inputs → result ≡ the_final_id transaction.now spends }
    {
        if !self.are_known || !self.has_script_sig {
            return None;
        }
        let mut hasher = self.hasher;
        hasher.update(compact_size(transaction.output_count()).as_slice());
        hasher.update(transaction.output_bytes());
        hasher.update(transaction.lock_time().to_le_bytes());
        Some(sha256(&hasher.finalize()))
    }
}
