//! Transactions, with or without witnesses.

ghost use Rattle.std.specs.Prelude.{◌≡◌, ◌<◌, length, All, Some, IsTrue, slice_get};
ghost use Rattle.std.specs.List.{flat_map};
ghost use Rattle.def_psbt.specs.Forms.{is_unsigned};
ghost use Rattle.def_psbt.specs.Transaction.{Transaction, input_text, output_text, id_of};
ghost use Rattle.def_psbt.specs.TransactionReading.{transaction_of as the_transaction_of, witnessed_transaction_of as the_witnessed_transaction_of, network_transaction_of};
ghost use Rattle.ms_transaction.specs.Unsigned.{IsUnsigned};

use crate::input::InputRef;
use crate::numbers::first_u32;
use crate::outputs::{OutputRef, Outputs};
use crate::sides::{Sides, first_sides};
use ms_hash::sha256;
use ms_psbt::{Psbt, first_bytes, skip_witnesses};
use sha2::{Digest, Sha256};
use std::marker::Model;

/// A transaction, which lies in bytes. Contracts see what it is without its witnesses.
#[derive(Debug, Drop)]
pub struct TransactionRef<'a> {
    version: u32,
    sides: Sides<'a>,
    lock_time: u32,
}

impl<'a> Model for TransactionRef<'a> {
    ghost use Rattle.def_psbt.specs.Transaction.{Transaction};

    ghost Value = { Transaction };

    ghost view = { λ t. record { version = t.version; inputs = t.sides.0; outputs = t.sides.1; lock_time = t.lock_time } };
}

impl<'a> TransactionRef<'a> {
    /// Its version. Takes no memory.
    pub fn version(&self) -> u32
        ensures { result ≡ self.now.version }
    {
        self.version
    }

    /// Its lock time. Takes no memory.
    pub fn lock_time(&self) -> u32
        ensures { result ≡ self.now.lock_time }
    {
        self.lock_time
    }

    /// How many inputs it has. Takes no memory.
    pub fn input_count(&self) -> u64
        ensures { result ≡ length self.now.inputs }
    {
        self.sides.input_count()
    }

    /// How many outputs it has. Takes no memory.
    pub fn output_count(&self) -> u64
        ensures { result ≡ length self.now.outputs }
    {
        self.sides.output_count()
    }

    /// The bytes of its inputs, without their number. Takes no memory.
    pub fn input_bytes(&self) -> &'a [u8]
        ensures { result.now ≡ flat_map input_text self.now.inputs }
    {
        self.sides.inputs()
    }

    /// The bytes of its outputs, without their number. Takes no memory.
    pub fn output_bytes(&self) -> &'a [u8]
        ensures { result.now ≡ flat_map output_text self.now.outputs }
    {
        self.sides.outputs()
    }

    /// Its id, as it lies in the outpoints that name it: the hash of its bytes without the witnesses. Takes no memory.
    #[tactic(auto, unfolding(def_hash::specs::Hash::hash256))]
    pub fn id(&self) -> [u8; 32]
        ensures { result ≡ id_of self.now }
    {
        let mut hasher = Sha256::new();
        hasher.update(self.version.to_le_bytes());
        hasher.update(self.sides.text());
        hasher.update(self.lock_time.to_le_bytes());
        sha256(&hasher.finalize())
    }

    /// The input with this number, from 0. It demands that there is such an input, and that none has a scriptSig. Takes no
    /// memory, and as long for each input.
    pub fn input(&self, number: usize) -> InputRef<'a>
        requires unsigned { All IsUnsigned self.now.inputs }
        requires number { number < length self.now.inputs }
        ensures { slice_get self.now.inputs number ≡ Some result }
    {
        self.sides.input(number)
    }

    /// Its outputs, one after the other. Takes no memory.
    pub fn outputs(&self) -> Outputs<'a>
        ensures { result ≡ self.now.outputs }
    {
        self.sides.each_output()
    }

    /// The output with this number, from 0, where there is one; those before it are passed over. Takes no memory.
    pub fn output(&self, number: u32) -> Option<OutputRef<'a>>
        ensures { result ≡ slice_get self.now.outputs number }
    {
        nth_output(self.outputs(), number)
    }
}

// The output with this number among those that are left.
fn nth_output(outputs: Outputs<'_>, number: u32) -> Option<OutputRef<'_>>
    ensures { result ≡ slice_get outputs.entry number }
{
    let mut left = outputs;
    'outputs: for _ in 0..number {
        left.next()?;
    }
    left.next()
}

// The transaction that bytes are without witnesses, whole.
#[tactic(auto, unfolding(def_psbt::specs::TransactionReading::transaction_of, def_psbt::specs::Part::whole))]
fn transaction_of(bytes: &[u8]) -> Option<TransactionRef<'_>>
    ensures { result ≡ the_transaction_of bytes.now }
{
    let (version, rest) = first_u32(bytes)?;
    let (sides, rest) = first_sides(rest)?;
    let (lock_time, rest) = first_u32(rest)?;
    if rest.is_empty() {
        Some(TransactionRef {
            version,
            sides,
            lock_time,
        })
    } else {
        None
    }
}

// The transaction that bytes are in BIP 144's form, whole.
#[tactic(auto, unfolding(def_psbt::specs::TransactionReading::witnessed_transaction_of, def_psbt::specs::Part::whole))]
fn witnessed_transaction_of(bytes: &[u8]) -> Option<TransactionRef<'_>>
    ensures { result ≡ the_witnessed_transaction_of bytes.now }
{
    let (version, rest) = first_u32(bytes)?;
    let (marker, rest) = first_bytes(2, rest)?;
    let (sides, rest) = first_sides(rest)?;
    let rest = skip_witnesses(sides.input_count(), rest)?;
    let (lock_time, rest) = first_u32(rest)?;
    if marker[1] == 1 && sides.input_count() > 0 && rest.is_empty() {
        Some(TransactionRef {
            version,
            sides,
            lock_time,
        })
    } else {
        None
    }
}

/// The previous transaction that bytes are, whole, with or without witnesses (BIP 174: `PSBT_IN_NON_WITNESS_UTXO`); none
/// exactly where they aren't one. Takes no memory.
#[tactic(auto, unfolding(def_psbt::specs::TransactionReading::network_transaction_of))]
pub fn previous_transaction(bytes: &[u8]) -> Option<TransactionRef<'_>>
    ensures { result ≡ network_transaction_of bytes.now }
{
    if bytes.len() > 4 && bytes[4] == 0 {
        witnessed_transaction_of(bytes)
    } else {
        transaction_of(bytes)
    }
}

// The same, of bytes whose transaction may have no scriptSigs.
fn unsigned_of(bytes: &[u8]) -> Option<TransactionRef<'_>>
    ensures transaction { result ≡ the_transaction_of bytes.now }
    ensures unsigned { (transaction : Transaction) → the_transaction_of bytes.now ≡ Some transaction → IsTrue (is_unsigned (Some transaction)) → All IsUnsigned transaction.inputs }
{
    transaction_of(bytes)
}

/// The transaction of a PSBT, of which no input has a scriptSig. It looks at each byte of the transaction. Takes no memory.
pub fn unsigned_transaction<'p>(psbt: &'p Psbt<'_>) -> TransactionRef<'p>
    ensures transaction { result ≡ psbt.now.transaction }
    ensures unsigned { All IsUnsigned psbt.now.transaction.inputs }
{
    match unsigned_of(psbt.transaction_bytes()) {
        Some(transaction) => transaction,
        None => unreachable!(),
    }
}
