//! The output that an input of a PSBT spends, by its map, and whether it has final fields.

ghost use Rattle.std.specs.Prelude.{◌≡◌, option_map};
ghost use Rattle.std.specs.Option.{option_and_then};
ghost use Rattle.def_psbt.specs.TransactionReading.{network_transaction_of};
ghost use Rattle.def_psbt.specs.Forms.{output_of};
ghost use Rattle.def_spend.specs.Fields.{field as the_field};
ghost use Rattle.def_spend.specs.Utxo.{utxo_of, proved_output};
ghost use Rattle.def_spend.specs.Reading.{has_final as the_has_final};
ghost use Rattle.def_update.specs.Updated.{spent_script as the_spent_script};

use def_psbt::types;
use ms_psbt::Pairs;
use ms_psbt_write::{final_script_sig, final_witness};
use ms_transaction::{InputRef, OutputRef, TransactionRef, previous_transaction, spent_output};

/// The value of the first pair of a type.
fn field(map: Pairs<'_>, type_number: u64) -> Option<&[u8]>
    ensures { option_map (λ b. b.now) result ≡ the_field type_number map.entry }
{
    for pair in map {
        if pair.key_type() == type_number {
            return Some(pair.value());
        }
    }
    None
}

/// Whether an input has final fields: a scriptSig with a byte, or a witness with an item.
pub fn has_final(map: Pairs<'_>, again: Pairs<'_>) -> bool
    requires { map ≡ again }
    ensures { result ≡ the_has_final map.entry }
{
    !final_script_sig(map).is_empty() || final_witness(again) != [0].as_slice()
}

/// The previous transaction that the map has.
fn previous_in(bytes: Option<&[u8]>) -> Option<TransactionRef<'_>>
    ensures { result ≡ option_and_then network_transaction_of (option_map (λ b. b.now) bytes.entry) }
{
    match bytes {
        Some(bytes) => previous_transaction(bytes),
        None => None,
    }
}

/// The output that the map has.
fn output_in(bytes: Option<&[u8]>) -> Option<OutputRef<'_>>
    ensures { result ≡ option_and_then output_of (option_map (λ b. b.now) bytes.entry) }
{
    match bytes {
        Some(bytes) => spent_output(bytes),
        None => None,
    }
}

/// The script of an output of the previous transaction, from which the claimed one doesn't differ.
fn proved_script<'a>(
    former: Option<OutputRef<'a>>,
    claim: Option<OutputRef<'_>>,
) -> Option<&'a [u8]>
    ensures { option_map (λ b. b.now) result ≡ the_spent_script (proved_output former.entry claim.entry) }
{
    let output = former?;
    match claim {
        Some(other) if output.bytes() != other.bytes() => None,
        _ => Some(output.script()),
    }
}

/// The script of the output that an input spends, where its map has that output, and none where it is another one. Takes no memory, and hashes
/// what the map holds of the previous transaction.
pub fn spent_script<'a>(input: &InputRef<'_>, map: Pairs<'a>, again: Pairs<'a>) -> Option<&'a [u8]>
    requires { map ≡ again }
    ensures { option_map (λ b. b.now) result ≡ the_spent_script (utxo_of input.now.outpoint map.entry) }
{
    let claim = output_in(field(map, types::IN_WITNESS_UTXO));
    let Some(previous) = previous_in(field(again, types::IN_NON_WITNESS_UTXO)) else {
        return Some(claim?.script());
    };
    if previous.id().as_slice() != input.id() {
        return None;
    }
    proved_script(previous.output(input.index()), claim)
}
