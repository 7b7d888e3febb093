//! `finalize`: the PSBT with each input that is Ready made final.
ghost use Rattle.std.specs.Prelude.{◌≡◌, ◌<◌, ◌++◌, List, All, Some, length, slice_get, IfOk, OnOk};
ghost use Rattle.def_psbt.specs.Map.{map_text};
ghost use Rattle.def_spend.specs.Finalized.{written_map};
ghost use Rattle.def_spend.specs.Reading.{Input as TheInput, AreInputs};
ghost use Rattle.def_psbt_answer.specs.declared.words.Command.TheVariants.{Finalize};
ghost use Rattle.def_psbt_answer.specs.Reply.{reply, command_reply};
ghost use Rattle.ms_input.specs.Seen.{input_seen};
ghost use Rattle.ms_transaction.specs.Unsigned.{IsUnsigned};
ghost use Rattle.ms_input.specs.Verified.{HaveAssets, IsVerifying, verification_of};
ghost use Rattle.ms_psbt_report.specs.Scaffolding.Written.{IsWritten, WritesNext};

use crate::hashing::next_output;
use crate::replies::reply::Reply;
use crate::shared::{shared_for, verifying_by};
use crate::states::{is_settled, status_of};
use bumpalo::Bump;
use def_psbt_answer::Form;
use def_spend::Verification;
use ms_input::{Input, State, Verifying};
use ms_psbt::Psbt;
use ms_psbt_write::{begin_psbt, finish_psbt, in_form, push_final_map, push_map};
use ms_transaction::{TransactionRef, unsigned_transaction};
use std::alloc::{AllocError, Global};

/// What is written of a PSBT up to the map of an input.
#[derive(Debug, Drop)]
pub struct Written {
    /// Its bytes.
    pub text: Vec<u8>,
    /// Whether all inputs before that one are Final or Ready.
    pub are_settled: bool,
}

/// The PSBT with each input that is Ready made final, in a form, where signatures are verified or aren't. Nothing else of it is touched.
#[tactic(auto, unfolding(def_psbt_answer::specs::Report::finalize_report))]
pub fn finalize<'p>(
    alloc: Global,
    verification: Verification,
    form: Form,
    psbt: &'p Psbt<'p>,
) -> Result<Reply, AllocError>
    requires { HaveAssets psbt.now }
    ensures { IfOk result (λ made. (inputs : List TheInput) → AreInputs verification psbt.entry.now inputs
        → reply made.status made.report.items ≡ command_reply (Finalize verification) form psbt.entry.now inputs) }
{
    let mut written = write_inputs(alloc, verification, psbt)?;
    finish_psbt(&mut written.text, psbt)?;
    Ok(Reply {
        status: status_of(written.are_settled),
        report: in_form(alloc, form, written.text)?,
    })
}

/// What is written before the maps of outputs.
fn write_inputs<'p>(
    alloc: Global,
    verification: Verification,
    psbt: &'p Psbt<'p>,
) -> Result<Written, AllocError>
    requires { HaveAssets psbt.now }
    ensures { IfOk result (λ written. (inputs : List TheInput) → AreInputs verification psbt.entry.now inputs → IsWritten psbt.entry.now inputs written) }
{
    let transaction = unsigned_transaction(psbt);
    let shared = shared_for(verification, &transaction);
    let mut outputs = transaction.outputs();
    let mut written = Written {
        text: begin_psbt(alloc, psbt)?,
        are_settled: true,
    };
    for number in 0..psbt.input_count() {
        let verifying = verifying_by(&shared, next_output(&mut outputs));
        write_input(alloc, psbt, &transaction, number, verifying, &mut written)?;
    }
    Ok(written)
}

/// Adds the map of the input with this number, made final where it is Ready. Its signatures are verified by this, or aren't.
fn write_input<'p>(
    alloc: Global,
    psbt: &'p Psbt<'p>,
    transaction: &TransactionRef<'p>,
    number: usize,
    verifying: Verifying<'_>,
    written: &mut Written,
) -> Result<(), AllocError>
    requires transaction { transaction.now ≡ psbt.now.transaction }
    requires unsigned { All IsUnsigned transaction.now.inputs }
    requires number { number < length psbt.now.inputs }
    requires assets { HaveAssets psbt.now }
    requires verifying { IsVerifying verifying transaction.now number }
    ensures { (inputs : List TheInput) → AreInputs (verification_of verifying.entry) psbt.entry.now inputs → WritesNext psbt.entry.now inputs number written.old written.new result }
{
    let arena = Bump::new(alloc);
    let input = Input::read(alloc, &arena, psbt, transaction, number, verifying)?;
    add_map(alloc, psbt, &input, number, &mut written.text)?;
    written.are_settled = written.are_settled && is_settled(input.state());
    Ok(())
}

/// Adds the map of an input as it is written.
fn add_map<'p>(
    alloc: Global,
    psbt: &'p Psbt<'p>,
    input: &Input<'p, '_>,
    number: usize,
    text: &mut Vec<u8>,
) -> Result<(), AllocError>
    requires number { number < length psbt.now.inputs }
    requires map { slice_get psbt.now.inputs number ≡ Some input.now.spend.fields }
    ensures { OnOk result (text.new.items ≡ text.old.items ++ map_text (written_map (input_seen input.now))) }
{
    let map = psbt.input_map(number);
    match input.state() {
        State::Ready => {
            let script_sig = input.script_sig(alloc)?;
            let witness = input.witness(alloc)?;
            push_final_map(text, map, script_sig.as_slice(), witness.as_slice())
        }
        _ => push_map(text, &map),
    }
}
