//! What the signatures of an input sign.

ghost use Rattle.std.specs.Prelude.{◌≡◌, slice_get, All};
ghost use Rattle.def_spend.specs.Amount.{known_amount as the_known_amount};
ghost use Rattle.def_spend.specs.Hashes.{hash_by, script_in};
ghost use Rattle.def_spend.specs.Input.{Spend};
ghost use Rattle.def_spend.specs.Utxo.{utxo_of, amount_of};
ghost use Rattle.ms_sighash.specs.Shared.{shared_of, IsOutputText};
ghost use Rattle.ms_transaction.specs.Unsigned.{IsUnsigned};
ghost use Rattle.ms_input.specs.Spending.{amount_seen};

use crate::fields::hash_type_of;
use crate::utxo::Amount;
use ms_sighash::SharedHashes;
use ms_transaction::{InputRef, TransactionRef};

/// What all signatures of a transaction without scriptSigs share: its hashes of outpoints, sequence numbers and outputs are
/// made once. Takes no memory.
pub fn shared_hashes(transaction: &TransactionRef<'_>) -> SharedHashes
    requires { All IsUnsigned transaction.now.inputs }
    ensures { result ≡ shared_of transaction.now }
{
    SharedHashes::new(
        transaction.version(),
        transaction.input_bytes(),
        transaction.output_bytes(),
        transaction.lock_time(),
    )
}

/// An amount in satoshis; 0 where it is unknown.
pub fn known_amount(amount: Amount) -> u64
    ensures { result ≡ the_known_amount (amount_seen amount) }
{
    match amount {
        Amount::Unknown => 0,
        Amount::Proved(satoshis) | Amount::Claimed(satoshis) => satoshis,
    }
}

/// What a signature of the hash type with this number signs of an input with this Script and amount, or `None` exactly where it is none:
/// by what all signatures of the transaction share, and the bytes of its output with the input's number, where there is one. Takes no
/// memory.
pub fn signed_hash(
    shared: &SharedHashes,
    output: Option<&[u8]>,
    number: u32,
    input: &InputRef<'_>,
    script: &[u8],
    amount: Amount,
) -> Option<[u8; 32]>
    ensures { (spend : Spend) → shared.now ≡ shared_of spend.transaction → IsOutputText (slice_get spend.transaction.outputs spend.number) output.entry
        → input.now ≡ spend.input → script.now ≡ script_in spend → amount_seen amount ≡ amount_of (utxo_of spend.input.outpoint spend.fields)
        → result ≡ hash_by number spend }
{
    let hash_type = hash_type_of(number)?;
    let satoshis = known_amount(amount);
    Some(shared.signature_hash(hash_type, input.bytes(), output, script, satoshis))
}
