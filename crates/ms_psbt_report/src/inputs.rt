//! What `inspect` and `hashes` print of an input.
ghost use Rattle.std.specs.Prelude.{◌≡◌, ◌++◌, Bool, true, Some, slice_get, flat_map, OnOk};
ghost use Rattle.def_spend.specs.Fields.{signatures_in};
ghost use Rattle.def_spend.specs.Input.{Spend};
ghost use Rattle.def_spend.specs.States.{state_of, is_sane as the_is_sane};
ghost use Rattle.def_psbt_answer.specs.Lines.{outpoint_line, signature_line};
ghost use Rattle.def_psbt_answer.specs.Report.{told_word, input_report, kind_lines, signature_lines, open_lines, input_hashes, hash_lines, checked_line};
ghost use Rattle.ms_input.specs.Seen.{input_seen};
ghost use Rattle.ms_sighash.specs.Shared.{shared_of, IsOutputText};
ghost use Rattle.ms_psbt_report.specs.Scaffolding.Tables.{IsTable};
ghost use Rattle.ms_psbt_report.specs.Verifying.{IsVerifiedBy};
ghost use Rattle.ms_psbt_report.specs.Scaffolding.Words.{AreWords};

use crate::amounts::push_amount_line;
use crate::lines::{
    push_check_line, push_input_line, push_kind_line, push_outpoint_line, push_sign_line,
    push_signature_line, push_unchecked_line,
};
use crate::states::{is_final, is_sane};
use crate::table::HashTable;
use crate::trees::push_tree_lines;
use crate::words::Words;
use def_spend::Verification;
use ms_input::{Input, Kind, SignedRef, State, Verifying, last_byte};
use ms_sighash::SharedHashes;
use std::alloc::{AllocError, Global};

/// Adds what `inspect` prints of an input, whose signatures are verified by this, or aren't.
pub fn push_input_report(
    alloc: Global,
    report: &mut Vec<u8>,
    input: &Input<'_, '_>,
    verifying: &Verifying<'_>,
) -> Result<(), AllocError>
    requires { IsVerifiedBy input.now.spend verifying.now }
    ensures { OnOk result (report.new.items ≡ report.old.items ++ input_report (input_seen input.now)) }
{
    push_input_line(report, input.number(), input.state())?;
    push_outpoint(report, input)?;
    push_amount_line(report, input.amount())?;
    push_open_lines(alloc, report, input, verifying)
}

/// Adds the line of what the transaction says of an input.
fn push_outpoint(report: &mut Vec<u8>, input: &Input<'_, '_>) -> Result<(), AllocError>
    ensures { OnOk result (report.new.items ≡ report.old.items ++ outpoint_line input.now.spend.input) }
{
    let outpoint = input.outpoint();
    push_outpoint_line(report, outpoint.id(), outpoint.index(), outpoint.sequence())
}

/// Adds what is told of an input that isn't Final, or that nobody looked at it.
fn push_open_lines(
    alloc: Global,
    report: &mut Vec<u8>,
    input: &Input<'_, '_>,
    verifying: &Verifying<'_>,
) -> Result<(), AllocError>
    requires { IsVerifiedBy input.now.spend verifying.now }
    ensures { OnOk result (report.new.items ≡ report.old.items ++ open_lines (input_seen input.now)) }
{
    if is_final(input.state()) {
        return push_unchecked_line(report);
    }
    push_kind_lines(report, input.state(), input.kind())?;
    push_signatures(report, input, verifying)?;
    push_tree_lines(alloc, report, input)
}

/// Adds the line of the kind of the spent output, where that is known.
#[tactic(auto, using(crate::proofs::KindLines::kind_told))]
fn push_kind_lines(report: &mut Vec<u8>, state: State, kind: Kind) -> Result<(), AllocError>
    ensures { OnOk result (report.new.items ≡ report.old.items ++ kind_lines state kind) }
{
    match state {
        State::NoUtxo | State::WrongUtxo => Ok(()),
        _ => push_kind_line(report, kind),
    }
}

/// Adds a line for each signature, with its word where it is verified and is known what it signs.
fn push_signatures(
    report: &mut Vec<u8>,
    input: &Input<'_, '_>,
    verifying: &Verifying<'_>,
) -> Result<(), AllocError>
    requires { IsVerifiedBy input.now.spend verifying.now }
    ensures { OnOk result (report.new.items ≡ report.old.items ++ signature_lines (state_of (input_seen input.now)) input.now.spend) }
{
    if !is_sane(input.state()) {
        return push_signature_lines(report, input.signatures(), &Words::Untold);
    }
    match verifying {
        Verifying::Unverified => {
            push_signature_lines(report, input.signatures(), &Words::Untold)
        }
        Verifying::Verified { shared, output } => push_judged(report, input, shared, *output),
    }
}

/// The same, of an input whose signatures are verified, and of which is known what they sign. They are judged here only where that
/// wasn't done before.
fn push_judged(
    report: &mut Vec<u8>,
    input: &Input<'_, '_>,
    shared: &SharedHashes,
    output: Option<&[u8]>,
) -> Result<(), AllocError>
    requires verified { input.now.spend.verification ≡ Verification.Verified }
    requires sane { the_is_sane (state_of (input_seen input.now)) ≡ true }
    requires shared { shared.now ≡ shared_of input.now.spend.transaction }
    requires output { IsOutputText (slice_get input.now.spend.transaction.outputs input.now.spend.number) output }
    ensures { OnOk result (report.new.items ≡ report.old.items ++ signature_lines (state_of (input_seen input.now)) input.now.spend) }
{
    match input.words() {
        Some(words) => push_signature_lines(report, input.signatures(), &Words::Judged(words)),
        None => {
            let table = HashTable::new(input, shared, output);
            push_signature_lines(report, input.signatures(), &Words::ByHash(&table))
        }
    }
}

/// Adds a line for each of these signatures, with its word.
fn push_signature_lines(
    report: &mut Vec<u8>,
    pairs: &[SignedRef<'_>],
    words: &Words<'_>,
) -> Result<(), AllocError>
    ensures { (is_known : Bool) (spend : Spend) → pairs.now ≡ signatures_in spend.fields → AreWords is_known spend words.now
        → OnOk result (report.new.items ≡ report.old.items ++ flat_map (λ pair. signature_line pair (told_word is_known spend pair)) pairs.now) }
{
    for number in 0..pairs.len() {
        push_told(report, number, &pairs[number], words)?;
    }
    Ok(())
}

/// Adds the line of the signature with this number, with its word.
fn push_told(
    report: &mut Vec<u8>,
    number: usize,
    pair: &SignedRef<'_>,
    words: &Words<'_>,
) -> Result<(), AllocError>
    ensures { (is_known : Bool) (spend : Spend) → AreWords is_known spend words.now → slice_get (signatures_in spend.fields) number ≡ Some pair.now
        → OnOk result (report.new.items ≡ report.old.items ++ signature_line pair.now (told_word is_known spend pair.now)) }
{
    let word = words.word(number, pair);
    push_signature_line(report, pair.key().as_bytes(), pair.sig(), word)
}

/// Adds what `hashes` prints of an input, whose signatures are verified or aren't, by what all signatures of the transaction share, and
/// the bytes of its output with the input's number, where there is one.
pub fn push_input_hashes(
    report: &mut Vec<u8>,
    input: &Input<'_, '_>,
    verification: Verification,
    shared: &SharedHashes,
    output: Option<&[u8]>,
) -> Result<(), AllocError>
    requires verification { input.now.spend.verification ≡ verification }
    requires shared { shared.now ≡ shared_of input.now.spend.transaction }
    requires output { IsOutputText (slice_get input.now.spend.transaction.outputs input.now.spend.number) output }
    ensures { OnOk result (report.new.items ≡ report.old.items ++ input_hashes (input_seen input.now)) }
{
    push_input_line(report, input.number(), input.state())?;
    if is_sane(input.state()) {
        let table = HashTable::new(input, shared, output);
        push_hash_lines(report, input, verification, &table)?;
    }
    Ok(())
}

/// Adds what a signature of the asked type signs, and what those that are there have to sign.
fn push_hash_lines(
    report: &mut Vec<u8>,
    input: &Input<'_, '_>,
    verification: Verification,
    table: &HashTable,
) -> Result<(), AllocError>
    requires verification { input.now.spend.verification ≡ verification }
    requires sane { the_is_sane (state_of (input_seen input.now)) ≡ true }
    requires table { IsTable input.now.spend table.now }
    ensures { OnOk result (report.new.items ≡ report.old.items ++ hash_lines input.now.spend) }
{
    let asked = input.asked_type();
    push_sign_line(report, asked, table.hash_by(asked))?;
    let words = words_of(input, verification, table);
    push_checks(report, input.signatures(), table, &words)
}

/// How the signatures of an input are judged, where they are verified. They are judged here only where that wasn't done before.
fn words_of<'a>(
    input: &'a Input<'_, '_>,
    verification: Verification,
    table: &'a HashTable,
) -> Words<'a>
    requires verification { input.now.spend.verification ≡ verification }
    requires sane { the_is_sane (state_of (input_seen input.now)) ≡ true }
    requires table { IsTable input.now.spend table.now }
    ensures { AreWords true input.entry.now.spend result }
{
    match verification {
        Verification::Unverified => Words::Untold,
        Verification::Verified => match input.words() {
            Some(words) => Words::Judged(words),
            None => Words::ByHash(table),
        },
    }
}

/// Adds what each of these signatures has to sign, by its own type, with its word.
fn push_checks(
    report: &mut Vec<u8>,
    pairs: &[SignedRef<'_>],
    table: &HashTable,
    words: &Words<'_>,
) -> Result<(), AllocError>
    ensures { (spend : Spend) → pairs.now ≡ signatures_in spend.fields → IsTable spend table.now → AreWords true spend words.now
        → OnOk result (report.new.items ≡ report.old.items ++ flat_map (checked_line spend) pairs.now) }
{
    for number in 0..pairs.len() {
        push_check(report, number, &pairs[number], table, words)?;
    }
    Ok(())
}

/// Adds what the signature with this number has to sign, with its word.
fn push_check(
    report: &mut Vec<u8>,
    number: usize,
    pair: &SignedRef<'_>,
    table: &HashTable,
    words: &Words<'_>,
) -> Result<(), AllocError>
    ensures { (spend : Spend) → IsTable spend table.now → AreWords true spend words.now → slice_get (signatures_in spend.fields) number ≡ Some pair.now
        → OnOk result (report.new.items ≡ report.old.items ++ checked_line spend pair.now) }
{
    let hash = table.hash_by(u32::from(last_byte(pair.sig())));
    let word = words.word(number, pair);
    push_check_line(report, pair, hash, word)
}
