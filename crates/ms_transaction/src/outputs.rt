//! Outputs, one after the other.

ghost use Rattle.std.specs.Prelude.{◌≡◌, List};
ghost use Rattle.def_psbt.specs.Forms.{output_of};
ghost use Rattle.def_psbt.specs.Transaction.{TransactionOutput, output_text};
ghost use Rattle.def_psbt.specs.TransactionReading.{first_output as the_first_output};
ghost use Rattle.ms_psbt.specs.Seen.{IsPart};
ghost use Rattle.ms_transaction.specs.Parts.{outputs_in};
ghost use Rattle.ms_transaction.specs.Scaffolding.Spelled.{AreOutputs};

use crate::numbers::{before, first_u64};
use ms_psbt::first_string;
use std::marker::Model;

/// An output, which lies in bytes.
#[derive(Debug, Drop)]
pub struct OutputRef<'a> {
    amount: u64,
    script: &'a [u8],
    bytes: &'a [u8],
}

impl<'a> Model for OutputRef<'a> {
    ghost use Rattle.std.specs.Prelude.{◌≡◌};
    ghost use Rattle.def_psbt.specs.Transaction.{TransactionOutput, output_text};

    ghost Value = { TransactionOutput };

    ghost view = { λ o. record { amount = o.amount; script = o.script.now } };

    ghost invariant = { λ o. o.bytes.now ≡ output_text (record { amount = o.amount; script = o.script.now }) };
}

impl<'a> OutputRef<'a> {
    /// Its amount in satoshis. Takes no memory.
    pub fn amount(&self) -> u64
        ensures { result ≡ self.now.amount }
    {
        self.amount
    }

    /// The Script that guards it. Takes no memory.
    pub fn script(&self) -> &'a [u8]
        ensures { result.now ≡ self.now.script }
    {
        self.script
    }

    /// Its bytes. Takes no memory.
    pub fn bytes(&self) -> &'a [u8]
        ensures { result.now ≡ output_text self.now }
    {
        self.bytes
    }
}

/// The outputs that are left, one after the other, which lie in bytes. Contracts see the list of the outputs.
#[derive(Debug, Drop)]
pub struct Outputs<'a> {
    rest: &'a [u8],
}

impl<'a> Model for Outputs<'a> {
    ghost use Rattle.std.specs.Prelude.{List};
    ghost use Rattle.def_psbt.specs.Transaction.{TransactionOutput};

    ghost Value = { List TransactionOutput };

    ghost use Rattle.ms_transaction.specs.Parts.{outputs_in};
    ghost use Rattle.ms_transaction.specs.Scaffolding.Spelled.{AreOutputs};

    ghost view = { λ o. outputs_in o.rest.now };

    ghost invariant = { λ o. AreOutputs o.rest.now };
}

impl<'a> Outputs<'a> {
    pub(crate) fn new(bytes: &'a [u8]) -> Outputs<'a>
        requires { AreOutputs bytes.now }
        ensures { result ≡ outputs_in bytes.entry.now }
    {
        Outputs { rest: bytes }
    }
}

impl<'a> Iterator for Outputs<'a> {
    ghost use Rattle.std.specs.Iterator.{YieldsFirst, item_count};

    type Item = OutputRef<'a>;

    ghost next_gives = { YieldsFirst (λ outputs. outputs) };

    ghost remaining = { item_count (λ outputs. outputs) };

    fn next(&mut self) -> Option<OutputRef<'a>> {
        let (output, rest) = first_output(self.rest)?;
        self.rest = rest;
        Some(output)
    }
}

// The output at the front, and the bytes behind it.
#[tactic(auto, unfolding(def_psbt::specs::TransactionReading::first_output))]
fn first_output(bytes: &[u8]) -> Option<(OutputRef<'_>, &[u8])>
    ensures { IsPart (λ part. (part.0, part.1.now)) result (the_first_output bytes.now) }
{
    let (amount, rest) = first_u64(bytes)?;
    let (script, rest) = first_string(rest)?;
    Some((
        OutputRef {
            amount,
            script,
            bytes: before(bytes, rest),
        },
        rest,
    ))
}

/// The output that bytes are, whole (BIP 174: `PSBT_IN_WITNESS_UTXO`); none exactly where they aren't one. Takes no memory.
#[tactic(auto, unfolding(def_psbt::specs::Part::whole))]
pub fn spent_output(bytes: &[u8]) -> Option<OutputRef<'_>>
    ensures { result ≡ output_of bytes.now }
{
    let (output, rest) = first_output(bytes)?;
    if rest.is_empty() { Some(output) } else { None }
}
