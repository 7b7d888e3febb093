//! The inputs and the outputs of a transaction.

ghost use Rattle.std.specs.Prelude.{◌≡◌, ◌<◌, ◌++◌, length, All, Some, slice_get};
ghost use Rattle.std.specs.List.{flat_map};
ghost use Rattle.def_psbt.specs.Transaction.{input_text, output_text, inputs_text, outputs_text};
ghost use Rattle.def_psbt.specs.TransactionReading.{first_sides as the_first_sides};
ghost use Rattle.ms_psbt.specs.Seen.{IsPart};
ghost use Rattle.ms_transaction.specs.Unsigned.{IsUnsigned};

use crate::input::InputRef;
use crate::numbers::{before, part};
use crate::outputs::Outputs;
use ms_psbt::{first_size, skip_inputs, skip_outputs};
use std::marker::Model;

/// The inputs and the outputs of a transaction, which lie in bytes. Contracts see the pair of both lists.
#[derive(Debug, Drop)]
pub struct Sides<'a> {
    /// Both, each behind their number.
    text: &'a [u8],
    inputs: &'a [u8],
    outputs: &'a [u8],
    input_count: u64,
    output_count: u64,
}

impl<'a> Model for Sides<'a> {
    ghost use Rattle.std.specs.Prelude.{List};
    ghost use Rattle.def_psbt.specs.Transaction.{TransactionInput, TransactionOutput};

    ghost Value = { List TransactionInput × List TransactionOutput };

    ghost use Rattle.ms_transaction.specs.Parts.{inputs_in, outputs_in};
    ghost use Rattle.ms_transaction.specs.Scaffolding.Spelled.{AreSides};

    ghost view = { λ s. (inputs_in s.inputs.now, outputs_in s.outputs.now) };

    ghost invariant = { λ s. AreSides s.text.now s.inputs.now s.outputs.now s.input_count s.output_count };
}

impl<'a> Sides<'a> {
    /// The bytes of both, each behind their number.
    pub fn text(&self) -> &'a [u8]
        ensures { result.now ≡ inputs_text self.now.0 ++ outputs_text self.now.1 }
    {
        self.text
    }

    /// The bytes of the inputs, without their number.
    pub fn inputs(&self) -> &'a [u8]
        ensures { result.now ≡ flat_map input_text self.now.0 }
    {
        self.inputs
    }

    /// The bytes of the outputs, without their number.
    pub fn outputs(&self) -> &'a [u8]
        ensures { result.now ≡ flat_map output_text self.now.1 }
    {
        self.outputs
    }

    /// How many inputs there are.
    pub fn input_count(&self) -> u64
        ensures { result ≡ length self.now.0 }
    {
        self.input_count
    }

    /// How many outputs there are.
    pub fn output_count(&self) -> u64
        ensures { result ≡ length self.now.1 }
    {
        self.output_count
    }

    /// The outputs, one after the other.
    pub fn each_output(&self) -> Outputs<'a>
        ensures { result ≡ self.now.1 }
    {
        Outputs::new(self.outputs)
    }

    /// The input with this number, where none has a scriptSig.
    pub fn input(&self, number: usize) -> InputRef<'a>
        requires unsigned { All IsUnsigned self.now.0 }
        requires number { number < length self.now.0 }
        ensures { slice_get self.now.0 number ≡ Some result }
    {
        InputRef::new(part(self.inputs, 41 * number, 41))
    }
}

/// The inputs and the outputs at the front of bytes, and the bytes behind them.
pub fn first_sides(bytes: &[u8]) -> Option<(Sides<'_>, &[u8])>
    ensures { IsPart (λ part. (part.0, part.1.now)) result (the_first_sides bytes.now) }
{
    let (input_count, middle) = skip_inputs(bytes)?;
    let (output_count, rest) = skip_outputs(middle)?;
    let (_, inputs) = first_size(bytes)?;
    let (_, outputs) = first_size(middle)?;
    Some((
        Sides {
            text: before(bytes, rest),
            inputs: before(inputs, middle),
            outputs: before(outputs, rest),
            input_count,
            output_count,
        },
        rest,
    ))
}
