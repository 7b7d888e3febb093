//! `verify`: whether the final fields of each input are valid.
ghost use Rattle.std.specs.Prelude.{◌≡◌, ◌&&◌, ◌++◌, List, flat_map, length, slice_get, IfOk, OnOk};
ghost use Rattle.def_psbt_answer.specs.Reply.{verify_status};
ghost use Rattle.def_psbt_answer.specs.Verified.{input_verdict, passed_line, verdict_lines, verify_report};
ghost use Rattle.def_spend.specs.declared.Verification.TheVariants.{Verified};
ghost use Rattle.def_spend.specs.Input.{Spend};
ghost use Rattle.def_spend.specs.Reading.{Input as TheInput, AreInputs};
ghost use Rattle.def_verify.specs.Verdict.{final_verdict as the_final_verdict, is_valid as the_is_valid, verdict_of};
ghost use Rattle.ms_input.specs.Seen.{input_seen};
ghost use Rattle.ms_sighash.specs.Shared.{shared_of, IsOutputText};
ghost use Rattle.ms_input.specs.Signing.{IsAsked};
ghost use Rattle.ms_input.specs.Verified.{HaveAssets};

use crate::hashing::next_output;
use crate::lines::{push_flaw_line, push_open_line, push_signature_line, push_valid_line};
use crate::replies::Reply;
use crate::shared::verifying_with;
use crate::states::{is_final, status_of};
use bumpalo::Bump;
use def_spend::Verification;
use ms_input::{ConsensusCheck, Input, Verdict, shared_hashes};
use ms_oracle::SigPair;
use ms_psbt::Psbt;
use ms_sighash::SharedHashes;
use ms_transaction::unsigned_transaction;
use std::alloc::{AllocError, Global};

/// Whether the final fields of each input of a PSBT are valid. What all signatures share is hashed once. It demands that what its maps hold
/// are assets. Refuses for want of memory alone.
#[tactic(auto, unfolding(def_psbt_answer::specs::Verified::verify_report))]
pub fn verify<'p>(alloc: Global, psbt: &'p Psbt<'p>) -> Result<Reply, AllocError>
    requires { HaveAssets psbt.now }
    ensures report { IfOk result (λ made. (inputs : List TheInput) → AreInputs Verified psbt.entry.now inputs → made.report.items ≡ verify_report inputs) }
    ensures status { IfOk result (λ made. (inputs : List TheInput) → AreInputs Verified psbt.entry.now inputs → made.status ≡ verify_status inputs) }
{
    let transaction = unsigned_transaction(psbt);
    let shared = shared_hashes(&transaction);
    let mut outputs = transaction.outputs();
    let mut report = Vec::new(alloc);
    let mut are_valid = true;
    for number in 0..psbt.input_count() {
        let arena = Bump::new(alloc);
        let output = next_output(&mut outputs);
        let verifying = verifying_with(Verification::Verified, &shared, output);
        let input = Input::read(alloc, &arena, psbt, &transaction, number, verifying)?;
        let is_valid = push_input_verdict(alloc, &mut report, &input, &shared, output)?;
        are_valid = stay_valid(are_valid, is_valid);
    }
    Ok(Reply {
        status: status_of(are_valid),
        report,
    })
}

/// Whether inputs are valid, with one more.
fn stay_valid(are_valid: bool, is_valid: bool) -> bool
    ensures { result ≡ (are_valid && is_valid) }
{
    are_valid && is_valid
}

/// Adds what `verify` prints of an input, by what all signatures of the transaction share, and the bytes of its output with the
/// input's number, where there is one; answers whether it is valid.
fn push_input_verdict(
    alloc: Global,
    report: &mut Vec<u8>,
    input: &Input<'_, '_>,
    shared: &SharedHashes,
    output: Option<&[u8]>,
) -> Result<bool, AllocError>
    requires shared { shared.now ≡ shared_of input.now.spend.transaction }
    requires output { IsOutputText (slice_get input.now.spend.transaction.outputs input.now.spend.number) output }
    ensures lines { OnOk result (report.new.items ≡ report.old.items ++ input_verdict (input_seen input.now)) }
    ensures valid { IfOk result (λ is. is ≡ the_is_valid (verdict_of (input_seen input.now))) }
{
    if is_final(input.state()) {
        return push_final_verdict(alloc, report, input, shared, output);
    }
    push_open_line(report, input.number(), input.state())?;
    Ok(false)
}

/// The same, of an input that is Final.
fn push_final_verdict(
    alloc: Global,
    report: &mut Vec<u8>,
    input: &Input<'_, '_>,
    shared: &SharedHashes,
    output: Option<&[u8]>,
) -> Result<bool, AllocError>
    requires shared { shared.now ≡ shared_of input.now.spend.transaction }
    requires output { IsOutputText (slice_get input.now.spend.transaction.outputs input.now.spend.number) output }
    ensures lines { OnOk result (report.new.items ≡ report.old.items ++ verdict_lines input.now.spend (the_final_verdict input.now.spend)) }
    ensures valid { IfOk result (λ is. is ≡ the_is_valid (the_final_verdict input.now.spend)) }
{
    match input.final_verdict(alloc, shared, output)? {
        Verdict::Flawed(flaw) => {
            push_flaw_line(report, input.number(), flaw)?;
            Ok(false)
        }
        Verdict::Valid(code, checks) => {
            push_valid_line(report, input.number())?;
            let check = input.check(shared, output, code.as_slice());
            push_passed_lines(report, &check, checks.as_slice())?;
            Ok(true)
        }
    }
}

/// Adds a line for each pair that passed.
fn push_passed_lines(
    report: &mut Vec<u8>,
    check: &ConsensusCheck<'_>,
    pairs: &[SigPair],
) -> Result<(), AllocError>
    requires { length check.now.input ≡ 41 }
    ensures { (spend : Spend) → IsAsked spend check.now → OnOk result (report.new.items ≡ report.old.items ++ flat_map (passed_line spend check.now.script) pairs.now) }
{
    for pair in pairs {
        push_passed(report, check, pair)?;
    }
    Ok(())
}

/// Adds the line of a pair that passed.
fn push_passed(
    report: &mut Vec<u8>,
    check: &ConsensusCheck<'_>,
    pair: &SigPair,
) -> Result<(), AllocError>
    requires { length check.now.input ≡ 41 }
    ensures { (spend : Spend) → IsAsked spend check.now → OnOk result (report.new.items ≡ report.old.items ++ passed_line spend check.now.script pair.now) }
{
    let judgement = check.judged(pair.key(), pair.sig());
    push_signature_line(report, pair.key(), pair.sig(), Some(judgement))
}
