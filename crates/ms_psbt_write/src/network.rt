//! The network transaction of a PSBT (BIP 144).

ghost use Rattle.std.specs.Prelude.{◌≡◌, ◌+◌, ◌*◌, ◌++◌, length, map, replicate, IfOk, OnOk, All};
ghost use Rattle.std.specs.List.{flat_map, list_any};
ghost use Rattle.hex.specs.Hex.{encode_lower};
ghost use Rattle.def_answer.specs.Lines.{line};
ghost use Rattle.def_psbt.specs.Transaction.{input_text, inputs_text, outputs_text, transaction_text};
ghost use Rattle.def_psbt.specs.Types.{IN_FINAL_SCRIPTWITNESS};
ghost use Rattle.def_spend.specs.Fields.{field};
ghost use Rattle.def_spend.specs.Finalized.{final_inputs, final_transaction, final_witness as the_final_witness, witnessed_text, network_text};
ghost use Rattle.def_spend.specs.Reading.{has_item as the_has_item};
ghost use Rattle.ms_transaction.specs.Unsigned.{IsUnsigned};

use crate::fields::{final_script_sig, final_witness, has_item};
use crate::pieces::{push_size, push_sized};
use ms_psbt::Psbt;
use ms_transaction::{InputRef, TransactionRef, unsigned_transaction};
use std::alloc::{AllocError, Global};

/// The digits of the network transaction of a PSBT, in a line that ends in LF: with each final scriptSig and, where an input
/// has a witness with an item, with each final witness (BIP 174, "Transaction Extractor"). Refuses for want of memory alone.
pub fn network_line(alloc: Global, psbt: &Psbt<'_>) -> Result<Vec<u8>, AllocError>
    ensures { IfOk result (λ out. out.items ≡ line (encode_lower (network_text psbt.now))) }
{
    let bytes = network_bytes(alloc, psbt)?;
    let mut text = vec![in alloc; b'\n'; 2 * bytes.len() + 1]?;
    put_digits(bytes.as_slice(), text.as_mut_slice());
    Ok(text)
}

// Puts the digits of bytes before the line feed that is there.
fn put_digits(bytes: &[u8], text: &mut [u8])
    requires { text.old ≡ replicate (2 * length bytes.now + 1) 10 }
    ensures { text.new ≡ line (encode_lower bytes.now) }
{
    let Ok(()) = hex::encode_to_slice(bytes, &mut text[..2 * bytes.len()]) else {
        unreachable!();
    };
}

// The bytes of the network transaction.
fn network_bytes(alloc: Global, psbt: &Psbt<'_>) -> Result<Vec<u8>, AllocError>
    ensures { IfOk result (λ out. out.items ≡ network_text psbt.now) }
{
    if has_witness(psbt) {
        witnessed_bytes(alloc, psbt)
    } else {
        plain_bytes(alloc, psbt)
    }
}

// The bytes of the transaction with its final scriptSigs.
fn plain_bytes(alloc: Global, psbt: &Psbt<'_>) -> Result<Vec<u8>, AllocError>
    ensures { IfOk result (λ out. out.items ≡ transaction_text (final_transaction psbt.now)) }
{
    let transaction = unsigned_transaction(psbt);
    let mut out = Vec::with_capacity(alloc, psbt.bytes().len())?;
    out.extend_from_slice(&transaction.version().to_le_bytes())?;
    push_sides(&mut out, psbt, &transaction)?;
    out.extend_from_slice(&transaction.lock_time().to_le_bytes())?;
    Ok(out)
}

// The same with its final witnesses.
fn witnessed_bytes(alloc: Global, psbt: &Psbt<'_>) -> Result<Vec<u8>, AllocError>
    ensures { IfOk result (λ out. out.items ≡ witnessed_text (final_transaction psbt.now) (map the_final_witness psbt.now.inputs)) }
{
    let transaction = unsigned_transaction(psbt);
    let mut out = Vec::with_capacity(alloc, psbt.bytes().len())?;
    out.extend_from_slice(&transaction.version().to_le_bytes())?;
    out.extend_from_slice(&[0x00, 0x01])?;
    push_sides(&mut out, psbt, &transaction)?;
    push_witnesses(&mut out, psbt)?;
    out.extend_from_slice(&transaction.lock_time().to_le_bytes())?;
    Ok(out)
}

// Adds the inputs, each with its final scriptSig, and the outputs, each behind their number.
fn push_sides(
    out: &mut Vec<u8>,
    psbt: &Psbt<'_>,
    transaction: &TransactionRef<'_>,
) -> Result<(), AllocError>
    requires unsigned { All IsUnsigned transaction.now.inputs }
    requires same { transaction.now ≡ psbt.now.transaction }
    ensures { OnOk result (out.new.items ≡ out.old.items ++ (inputs_text (final_transaction psbt.now).inputs ++ outputs_text psbt.now.transaction.outputs)) }
{
    push_size(out, psbt.input_count() as u64)?;
    push_inputs(out, psbt, transaction)?;
    push_size(out, transaction.output_count())?;
    out.extend_from_slice(transaction.output_bytes())?;
    Ok(())
}

// Whether an input has a final witness with an item.
fn has_witness(psbt: &Psbt<'_>) -> bool
    ensures { result ≡ list_any (λ fields. the_has_item (field IN_FINAL_SCRIPTWITNESS fields)) psbt.now.inputs }
{
    'inputs: for number in 0..psbt.input_count() {
        if has_item(final_witness(psbt.input_map(number))) {
            return true;
        }
    }
    false
}

// Adds the inputs, each with its final scriptSig.
fn push_inputs(
    out: &mut Vec<u8>,
    psbt: &Psbt<'_>,
    transaction: &TransactionRef<'_>,
) -> Result<(), AllocError>
    requires unsigned { All IsUnsigned transaction.now.inputs }
    requires same { transaction.now ≡ psbt.now.transaction }
    ensures { OnOk result (out.new.items ≡ out.old.items ++ flat_map input_text (final_inputs transaction.now.inputs psbt.now.inputs)) }
{
    'inputs: for number in 0..psbt.input_count() {
        let script_sig = final_script_sig(psbt.input_map(number));
        push_input(out, &transaction.input(number), script_sig)?;
    }
    Ok(())
}

// Adds an input with this scriptSig.
fn push_input(out: &mut Vec<u8>, input: &InputRef<'_>, script_sig: &[u8]) -> Result<(), AllocError>
    ensures { OnOk result (out.new.items ≡ out.old.items ++ input_text (record input.now { script_sig = script_sig.now })) }
{
    out.extend_from_slice(input.id())?;
    out.extend_from_slice(&input.index().to_le_bytes())?;
    push_sized(out, script_sig)?;
    out.extend_from_slice(&input.sequence().to_le_bytes())?;
    Ok(())
}

// Adds the final witnesses.
fn push_witnesses(out: &mut Vec<u8>, psbt: &Psbt<'_>) -> Result<(), AllocError>
    ensures { OnOk result (out.new.items ≡ out.old.items ++ flat_map (λ witness. witness) (map the_final_witness psbt.now.inputs)) }
{
    'inputs: for number in 0..psbt.input_count() {
        out.extend_from_slice(final_witness(psbt.input_map(number)))?;
    }
    Ok(())
}
