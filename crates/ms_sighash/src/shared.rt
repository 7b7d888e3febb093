//! What all signatures of a transaction share, and the hash that one signs.

ghost use Rattle.std.specs.Prelude.{◌≡◌, ℕ, length, take, drop};
ghost use Rattle.std.specs.Int.{w32, to_le_bytes};
ghost use Rattle.def_hash.specs.Hash.{hash256 as the_hash256};
ghost use Rattle.def_psbt.specs.Transaction.{TransactionInput, Transaction};
ghost use Rattle.def_spend.specs.HashTypes.{number_of as the_number_of};
ghost use Rattle.def_spend.specs.SignatureHash.{signature_hash as the_signature_hash};
ghost use Rattle.ms_sighash.specs.Shared.{shared_of, AreParts, AreSigned, prevouts_from, sequences_from, outputs_from, hash_of_output as the_hash_of_output, front_from, text_by, outputs_with as the_outputs_with, byte_hash};
ghost use Rattle.def_verify.specs.ConsensusHash.{type_by as the_type_by, consensus_hash as the_consensus_hash};
ghost use Rattle.std.specs.Prelude.{Option};
ghost use Rattle.std.specs.Borrow.{Bor};
ghost use Rattle.def_script.specs.Bytes.{Bytes};
ghost use Rattle.def_spend.specs.Hashes.{spent_amount};
ghost use Rattle.def_spend.specs.Input.{Spend};
ghost use Rattle.sha2.specs.Hashers.{Holds256};

use crate::pieces::hash_of_pieces;
use def_spend::{HashType, SignedOutputs};
use ms_hash::{hash256, sha256};
use ms_script::compact_size;
use sha2::{Digest, Sha256};
use std::marker::Model;

/// What all signatures of a transaction share: its version, its lock time, and the hashes of all its outpoints, sequence
/// numbers and outputs, each made once.
#[derive(Clone, Copy, Debug)]
pub struct SharedHashes {
    version: u32,
    prevouts: [u8; 32],
    sequences: [u8; 32],
    outputs: [u8; 32],
    lock_time: u32,
}

impl Model for SharedHashes {
    ghost use Rattle.ms_sighash.specs.Shared.{Shared};

    ghost Value = { Shared };

    ghost view = { λ s. record { version = s.version; prevouts = s.prevouts; sequences = s.sequences; outputs = s.outputs; lock_time = s.lock_time } };

    ghost inverse = { λ s. record { version = s.version; prevouts = s.prevouts; sequences = s.sequences; outputs = s.outputs; lock_time = s.lock_time } };
}

impl SharedHashes {
    /// The hashes of a transaction without scriptSigs: `inputs` are the bytes of its inputs, and `outputs` those of its
    /// outputs, each without their number. Takes no memory.
    pub fn new(version: u32, inputs: &[u8], outputs: &[u8], lock_time: u32) -> SharedHashes
        ensures { (transaction : Transaction) → AreParts transaction version inputs.now outputs.now lock_time → result ≡ shared_of transaction }
    {
        SharedHashes {
            version,
            prevouts: hash_of_pieces(inputs, 0, 36),
            sequences: hash_of_pieces(inputs, 37, 4),
            outputs: hash256(outputs),
            lock_time,
        }
    }

    /// What a signature of this hash type signs: `input` are the bytes of the input that it is in, `output` those of the
    /// output with the input's number, where there is one, `script` is its witness script and `amount` what it spends. Takes
    /// no memory.
    pub fn signature_hash(
        &self,
        hash_type: HashType,
        input: &[u8],
        output: Option<&[u8]>,
        script: &[u8],
        amount: u64,
    ) -> [u8; 32]
        requires { length input.now ≡ 41 }
        ensures { (transaction : Transaction) (number : ℕ) (signed : TransactionInput) → self.now ≡ shared_of transaction
            → AreSigned transaction number signed input.now output.entry → result ≡ the_signature_hash hash_type transaction number signed script.now amount }
    {
        let outputs = self.outputs_for(hash_type.outputs, output);
        self.hash_text(
            hash_type,
            number_of(hash_type),
            input,
            outputs,
            script,
            amount,
        )
    }

    /// What consensus has a signature sign that ends in this byte, whichever it is: `input` are the bytes of the input that it is
    /// in, `single` is what `hash_of_output` gives of the output with the input's number, `script` is the Script that is run and
    /// `amount` what the input spends. Takes no memory.
    pub fn consensus_hash(
        &self,
        byte: u8,
        input: &[u8],
        single: [u8; 32],
        script: &[u8],
        amount: u64,
    ) -> [u8; 32]
        requires { length input.now ≡ 41 }
        ensures parts { result ≡ byte_hash byte self.now input.now single script.now amount }
        ensures consensus { (spend : Spend) (output : Option (Bor Bytes)) → self.now ≡ shared_of spend.transaction → AreSigned spend.transaction spend.number spend.input input.now output
            → single ≡ the_hash_of_output output → amount ≡ spent_amount spend → result ≡ the_consensus_hash byte spend script.now }
    {
        let hash_type = type_by(byte);
        let outputs = self.outputs_with(hash_type.outputs, single);
        self.hash_text(hash_type, u32::from(byte), input, outputs, script, amount)
    }

    // The hash of the ten fields.
    #[tactic(auto, unfolding(def_hash::specs::Hash::hash256))]
    fn hash_text(
        &self,
        hash_type: HashType,
        number: u32,
        input: &[u8],
        outputs: [u8; 32],
        script: &[u8],
        amount: u64,
    ) -> [u8; 32]
        requires { length input.now ≡ 41 }
        ensures { result ≡ the_hash256 (text_by hash_type number self.now input.now outputs script.now amount) }
    {
        let mut hasher = self.front_hasher(hash_type);
        hasher.update(outpoint_in(input));
        hasher.update(compact_size(script.len() as u64).as_slice());
        hasher.update(script);
        hasher.update(amount.to_le_bytes());
        hasher.update(sequence_in(input));
        hasher.update(outputs);
        hasher.update(self.lock_time_bytes());
        hasher.update(number.to_le_bytes());
        sha256(&hasher.finalize())
    }

    // A hasher that holds the fields before the outpoint.
    fn front_hasher(&self, hash_type: HashType) -> Sha256
        ensures { Holds256 result (front_from hash_type self.now) }
    {
        let mut hasher = Sha256::new();
        hasher.update(self.version_bytes());
        hasher.update(self.prevouts_for(hash_type));
        hasher.update(self.sequences_for(hash_type));
        hasher
    }

    /// The version of the transaction. Takes no memory.
    pub fn version(&self) -> u32
        ensures { result ≡ self.now.version }
    {
        self.version
    }

    /// The lock time of the transaction. Takes no memory.
    pub fn lock_time(&self) -> u32
        ensures { result ≡ self.now.lock_time }
    {
        self.lock_time
    }

    // The version, and the lock time, as they lie in a transaction.
    fn version_bytes(&self) -> [u8; 4]
        ensures { result ≡ to_le_bytes w32 self.now.version }
    {
        self.version.to_le_bytes()
    }

    fn lock_time_bytes(&self) -> [u8; 4]
        ensures { result ≡ to_le_bytes w32 self.now.lock_time }
    {
        self.lock_time.to_le_bytes()
    }

    // The hash of the outpoints, where they are signed.
    fn prevouts_for(&self, hash_type: HashType) -> [u8; 32]
        ensures { result ≡ prevouts_from hash_type self.now }
    {
        if hash_type.anyone_can_pay {
            NO_HASH
        } else {
            self.prevouts
        }
    }

    // The hash of the sequence numbers, where they are signed.
    fn sequences_for(&self, hash_type: HashType) -> [u8; 32]
        ensures { result ≡ sequences_from hash_type self.now }
    {
        if hash_type.anyone_can_pay {
            return NO_HASH;
        }
        match hash_type.outputs {
            SignedOutputs::All => self.sequences,
            SignedOutputs::None | SignedOutputs::Single => NO_HASH,
        }
    }

    // The hash of all outputs, or of the one with the number of the input, as far as they are signed.
    fn outputs_for(&self, signed: SignedOutputs, output: Option<&[u8]>) -> [u8; 32]
        ensures { result ≡ outputs_from signed self.now output.entry }
    {
        match signed {
            SignedOutputs::All => self.outputs,
            SignedOutputs::None => NO_HASH,
            SignedOutputs::Single => hash_of_output(output),
        }
    }

    // The same, with the hash of the one with the number of the input.
    fn outputs_with(&self, signed: SignedOutputs, single: [u8; 32]) -> [u8; 32]
        ensures { result ≡ the_outputs_with signed self.now single }
    {
        match signed {
            SignedOutputs::All => self.outputs,
            SignedOutputs::None => NO_HASH,
            SignedOutputs::Single => single,
        }
    }
}

/// 32 zero bytes, where a hash isn't signed.
const NO_HASH: [u8; 32] = [0; 32];

// The outpoint and the sequence number of an input without a scriptSig.
fn outpoint_in(input: &[u8]) -> &[u8]
    requires { length input.now ≡ 41 }
    ensures { result.now ≡ take 36 input.now }
{
    &input[..36]
}

fn sequence_in(input: &[u8]) -> &[u8]
    requires { length input.now ≡ 41 }
    ensures { result.now ≡ take 4 (drop 37 input.now) }
{
    &input[37..41]
}

/// The hash of the bytes of an output, and 32 zero bytes where there is none. Takes no memory.
pub fn hash_of_output(output: Option<&[u8]>) -> [u8; 32]
    ensures { result ≡ the_hash_of_output output.entry }
{
    match output {
        Some(output) => hash256(output),
        None => NO_HASH,
    }
}

// The number of a hash type.
fn number_of(hash_type: HashType) -> u32
    ensures { result ≡ the_number_of hash_type }
{
    let outputs = match hash_type.outputs {
        SignedOutputs::All => 1,
        SignedOutputs::None => 2,
        SignedOutputs::Single => 3,
    };
    if hash_type.anyone_can_pay {
        0x80 + outputs
    } else {
        outputs
    }
}

// What a byte signs.
fn type_by(byte: u8) -> HashType
    ensures { result ≡ the_type_by byte }
{
    let outputs = match byte % 32 {
        2 => SignedOutputs::None,
        3 => SignedOutputs::Single,
        _ => SignedOutputs::All,
    };
    HashType {
        outputs,
        anyone_can_pay: 0x80 <= byte,
    }
}
