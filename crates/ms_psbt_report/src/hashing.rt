//! `hashes`: what the signatures of each input sign.
ghost use Rattle.std.specs.Prelude.{◌≡◌, List, drop, slice_get, IfOk};
ghost use Rattle.def_spend.specs.Reading.{Input as TheInput, AreInputs};
ghost use Rattle.def_psbt_answer.specs.Report.{hashes_report};
ghost use Rattle.ms_input.specs.Verified.{HaveAssets};
ghost use Rattle.ms_sighash.specs.Shared.{IsOutputText};

use crate::inputs::push_input_hashes;
use crate::shared::verifying_with;
use bumpalo::Bump;
use def_spend::Verification;
use ms_input::{Input, shared_hashes};
use ms_psbt::Psbt;
use ms_transaction::{Outputs, unsigned_transaction};
use std::alloc::{AllocError, Global};

/// What the signatures of each input of a PSBT sign (BIP 143), and how those that are there are judged, where they are verified. What all
/// of them share is hashed once. It demands that what its maps hold are assets. Refuses for want of memory alone.
#[tactic(auto, unfolding(def_psbt_answer::specs::Report::hashes_report))]
pub fn hashes<'p>(
    alloc: Global,
    verification: Verification,
    psbt: &'p Psbt<'p>,
) -> Result<Vec<u8>, AllocError>
    requires { HaveAssets psbt.now }
    ensures { IfOk result (λ report. (inputs : List TheInput) → AreInputs verification psbt.entry.now inputs → report.items ≡ hashes_report inputs) }
{
    let transaction = unsigned_transaction(psbt);
    let shared = shared_hashes(&transaction);
    let mut outputs = transaction.outputs();
    let mut report = Vec::new(alloc);
    for number in 0..psbt.input_count() {
        let arena = Bump::new(alloc);
        let output = next_output(&mut outputs);
        let verifying = verifying_with(verification, &shared, output);
        let input = Input::read(alloc, &arena, psbt, &transaction, number, verifying)?;
        push_input_hashes(&mut report, &input, verification, &shared, output)?;
    }
    Ok(report)
}

/// The bytes of the next output, where there is one; it is taken from those that are left.
pub fn next_output<'p>(outputs: &mut Outputs<'p>) -> Option<&'p [u8]>
    ensures first { IsOutputText (slice_get outputs.old 0) result }
    ensures rest { outputs.new ≡ drop 1 outputs.old }
{
    match outputs.next() {
        Some(output) => Some(output.bytes()),
        None => None,
    }
}
