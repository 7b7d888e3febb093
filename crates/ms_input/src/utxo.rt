//! The output that an input of a PSBT spends, by its map, its amount and its kind, and the Script that it demands.

ghost use Rattle.std.specs.Prelude.{◌≡◌, Some, None, option_map};
ghost use Rattle.def_psbt.specs.Transaction.{Outpoint};
ghost use Rattle.std.specs.Option.{option_and_then};
ghost use Rattle.def_psbt.specs.TransactionReading.{network_transaction_of};
ghost use Rattle.def_psbt.specs.Forms.{output_of};
ghost use Rattle.def_spend.specs.Utxo.{utxo_by, proved_output, amount_of as the_amount_of};
ghost use Rattle.ms_input.specs.Spending.{amount_seen, utxo_seen, utxo_held};

use crate::fields::Fields;
pub use amount::Amount;
pub use code::ScriptCode;
use ms_transaction::{InputRef, OutputRef, TransactionRef, previous_transaction, spent_output};
pub use program::{is_key_hash, is_p2sh, is_script_hash, key_hash_script, p2sh_of};
pub use spent::{Spent, spending};

mod amount;
mod code;
mod program;
mod script;
mod spent;

/// The output that an input spends.
#[derive(Drop)]
pub enum Utxo<'a> {
    /// The map has neither the previous transaction nor the output.
    None,
    /// The previous transaction isn't that of the outpoint, or hasn't the output, or the map has another one.
    Wrong,
    /// The output of the previous transaction, whose id proves it.
    Proved(OutputRef<'a>),
    /// The output as the map claims it.
    Claimed(OutputRef<'a>),
}

impl Utxo<'_> {
    /// The amount of an output that is known. Takes no memory.
    pub fn amount(&self) -> Amount
        ensures { amount_seen result ≡ the_amount_of (utxo_seen self.now) }
    {
        match self {
            Utxo::None | Utxo::Wrong => Amount::Unknown,
            Utxo::Proved(output) => Amount::Proved(output.amount()),
            Utxo::Claimed(output) => Amount::Claimed(output.amount()),
        }
    }
}

/// The output of an input's outpoint, by the fields of its map. Takes no memory, and hashes what the map holds of the previous
/// transaction.
pub fn utxo_of<'a>(input: &InputRef<'_>, fields: &Fields<'a>) -> Utxo<'a>
    ensures { utxo_seen result ≡ utxo_held input.now.outpoint fields.now }
{
    let claim = output_in(fields.output());
    match transaction_in(fields.previous()) {
        Some(previous) => previous_utxo(input, &previous, claim),
        None => claimed_utxo(claim),
    }
}

/// The previous transaction that the map has.
fn transaction_in<'a>(bytes: Option<&'a [u8]>) -> Option<TransactionRef<'a>>
    ensures { result ≡ option_and_then network_transaction_of (option_map (λ b. b.now) bytes.entry) }
{
    match bytes {
        Some(bytes) => previous_transaction(bytes),
        None => None,
    }
}

/// The output that the map has.
fn output_in<'a>(bytes: Option<&'a [u8]>) -> Option<OutputRef<'a>>
    ensures { result ≡ option_and_then output_of (option_map (λ b. b.now) bytes.entry) }
{
    match bytes {
        Some(bytes) => spent_output(bytes),
        None => None,
    }
}

/// Where the map has no previous transaction.
fn claimed_utxo<'a>(claim: Option<OutputRef<'a>>) -> Utxo<'a>
    ensures { (outpoint : Outpoint) → utxo_seen result ≡ utxo_by None claim.entry outpoint }
{
    match claim {
        Some(output) => Utxo::Claimed(output),
        None => Utxo::None,
    }
}

/// Where the map has a previous transaction.
fn previous_utxo<'a>(
    input: &InputRef<'_>,
    previous: &TransactionRef<'a>,
    claim: Option<OutputRef<'a>>,
) -> Utxo<'a>
    ensures { utxo_seen result ≡ utxo_by (Some previous.now) claim.entry input.now.outpoint }
{
    if previous.id().as_slice() != input.id() {
        return Utxo::Wrong;
    }
    match previous.output(input.index()) {
        Some(output) => proved_utxo(output, claim),
        None => Utxo::Wrong,
    }
}

/// An output of the previous transaction, from which the claimed one doesn't differ.
fn proved_utxo<'a>(output: OutputRef<'a>, claim: Option<OutputRef<'a>>) -> Utxo<'a>
    ensures { utxo_seen result ≡ proved_output (Some output.entry) claim.entry }
{
    match claim {
        Some(other) => {
            if output.bytes() == other.bytes() {
                Utxo::Proved(output)
            } else {
                Utxo::Wrong
            }
        }
        None => Utxo::Proved(output),
    }
}
