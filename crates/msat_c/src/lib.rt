//! The static library for C, with one export for each call of `ms_calls` and `ms_psbt_calls`. `include/msat.h` declares them.
#![tactic(auto)]

ghost use Rattle.std.specs.Prelude.{◌≡◌, ◌≢◌, ◌⊎◌, ◌↔◌, true, false, length, IsUtf8};
ghost use Rattle.def_answer.specs.Status.{code_of};
ghost use Rattle.def_curve.specs.Encoding.{point_bytes};
ghost use Rattle.def_curve.specs.Judgement.{judge};
ghost use Rattle.def_descriptor_answer.specs.Answer.{Answer as DescriptorAnswer};
ghost use Rattle.def_descriptor_answer.specs.Status.{code_of as descriptor_code_of};
ghost use Rattle.def_psbt_answer.specs.Answer.{Answer as PsbtAnswer};
ghost use Rattle.def_psbt_answer.specs.Status.{code_of as psbt_code_of};
ghost use Rattle.ms_arrays.specs.ArrayAssets.{locks_of, assets_of_arrays};
ghost use Rattle.ms_arrays.specs.ArrayPlan.{plan_of_arrays};
ghost use Rattle.ms_arrays.specs.ArrayRun.{run_arrays};
ghost use Rattle.ms_calls.specs.Asked.{plan_given, asked_keys, asked_weight};
ghost use Rattle.ms_calls.specs.Audited.{audit_by, audit_code, audited_outcome, audited_steps, canonical_after};
ghost use Rattle.ms_calls.specs.Buffers.{written_over};
ghost use Rattle.ms_calls.specs.Curve.{code_of as judgement_code, point_code, point_after, point_needed_after};
ghost use Rattle.ms_calls.specs.Demanded.{policy_given, printed_given, keys_given};
ghost use Rattle.ms_calls.specs.Ran.{HoldsOfRun, ran_by, run_code, ran_outcome, ran_checks};
ghost use Rattle.ms_calls.specs.Readings.{are_keys, keys_in, TellsDecoded, HasNoReading};
ghost use Rattle.ms_calls.specs.TextReply.{HoldsOfReply, rules_for, script_given, facts_given, weight_given, witness_by, satisfied_by};
ghost use Rattle.ms_calls.specs.TextReply.{code_given, reason_after, value_after, buffer_after, needed_after};
ghost use Rattle.ms_calls.specs.TextReply.{bytes_after, bytes_needed_after, lengths_after, items_count_after};
ghost use Rattle.ms_calls.specs.Version.{number_of, MAJOR, MINOR, PATCH};
ghost use Rattle.ms_calls.specs.Lines.{HoldsOfLines};
ghost use Rattle.ms_calls.specs.Words.{HoldsOfAnswer, AreNoWords};
ghost use Rattle.msat_lines.specs.Frame.{OtherAnswer};

use ms_arrays::{Arrays, PlanArrays, RunArrays};
use ms_calls::{Facts, PlacedStep, Reason, RunOutcome};
use ms_oracle::Locks;
use std::alloc::Global;

/// The version of the library, as one number: a million for each major one, a thousand for each minor one, and the patch.
#[unsafe(no_mangle)]
pub extern "C" fn msat_version() -> u32
    ensures { result ≡ number_of MAJOR MINOR PATCH }
{
    ms_calls::version()
}

/// Answers the words of a command line, as the program does where its standard input holds `source`.
#[unsafe(no_mangle)]
pub extern "C" fn msat_answer(
    alloc: Global,
    count: usize,
    words: &[u8],
    source: &[u8],
    report: &mut [u8],
    needed: &mut usize,
) -> u32
    ensures status { HoldsOfAnswer OtherAnswer count words.now source.now result (λ s r. result ≡ code_of s) }
    ensures written { HoldsOfAnswer OtherAnswer count words.now source.now result (λ s r. report.new ≡ written_over report.old r) }
    ensures needed { HoldsOfAnswer OtherAnswer count words.now source.now result (λ s r. needed.new ≡ length r) }
    ensures lines { HoldsOfLines count words.now source.now result report.old report.new needed.new }
    ensures unreadable { AreNoWords count words.now → (result ≡ 11) ⊎ (result ≡ 7) }
    ensures kept { (result ≡ 11) ⊎ (result ≡ 7) → report.new ≡ report.old }
    ensures kept_needed { (result ≡ 11) ⊎ (result ≡ 7) → needed.new ≡ needed.old }
{
    ms_calls::answer(alloc, count, words, source, report, needed)
}

/// Answers the words of a command line, as the program `msat-psbt` does where its standard input holds `source`.
#[unsafe(no_mangle)]
pub extern "C" fn msat_psbt_answer(
    alloc: Global,
    count: usize,
    words: &[u8],
    source: &[u8],
    report: &mut [u8],
    needed: &mut usize,
) -> u32
    ensures status { HoldsOfAnswer PsbtAnswer count words.now source.now result (λ s r. result ≡ psbt_code_of s) }
    ensures written { HoldsOfAnswer PsbtAnswer count words.now source.now result (λ s r. report.new ≡ written_over report.old r) }
    ensures needed { HoldsOfAnswer PsbtAnswer count words.now source.now result (λ s r. needed.new ≡ length r) }
    ensures unreadable { AreNoWords count words.now → (result ≡ 11) ⊎ (result ≡ 7) }
    ensures kept { (result ≡ 11) ⊎ (result ≡ 7) → report.new ≡ report.old }
    ensures kept_needed { (result ≡ 11) ⊎ (result ≡ 7) → needed.new ≡ needed.old }
{
    ms_psbt_calls::psbt_answer(alloc, count, words, source, report, needed)
}

/// Answers the words of a command line, as the program `msat-descriptor` does where its standard input holds `source`.
#[unsafe(no_mangle)]
pub extern "C" fn msat_descriptor_answer(
    alloc: Global,
    count: usize,
    words: &[u8],
    source: &[u8],
    report: &mut [u8],
    needed: &mut usize,
) -> u32
    ensures status { HoldsOfAnswer DescriptorAnswer count words.now source.now result (λ s r. result ≡ descriptor_code_of s) }
    ensures written { HoldsOfAnswer DescriptorAnswer count words.now source.now result (λ s r. report.new ≡ written_over report.old r) }
    ensures needed { HoldsOfAnswer DescriptorAnswer count words.now source.now result (λ s r. needed.new ≡ length r) }
    ensures unreadable { AreNoWords count words.now → (result ≡ 11) ⊎ (result ≡ 7) }
    ensures kept { (result ≡ 11) ⊎ (result ≡ 7) → report.new ≡ report.old }
    ensures kept_needed { (result ≡ 11) ⊎ (result ≡ 7) → needed.new ≡ needed.old }
{
    ms_descriptor_calls::descriptor_answer(alloc, count, words, source, report, needed)
}

/// The Script of a text that is valid by the limits of policy, or by those of consensus alone.
#[unsafe(no_mangle)]
pub extern "C" fn msat_script(
    alloc: Global,
    consensus: bool,
    text: &[u8],
    script: &mut [u8],
    needed: &mut usize,
    reason: &mut Reason,
) -> u32
    ensures code { HoldsOfReply text.now result (script_given (rules_for consensus)) (λ given. result ≡ code_given given) }
    ensures script { HoldsOfReply text.now result (script_given (rules_for consensus)) (λ given. script.new ≡ buffer_after script.old given) }
    ensures needed { HoldsOfReply text.now result (script_given (rules_for consensus)) (λ given. needed.new ≡ needed_after needed.old given) }
    ensures reason { HoldsOfReply text.now result (script_given (rules_for consensus)) (λ given. reason.new ≡ reason_after reason.old given) }
    ensures unreadable { result ≡ 11 ↔ (¬ IsUtf8 text.now) }
    ensures kept { (result ≡ 11) ⊎ (result ≡ 7) → script.new ≡ script.old }
    ensures kept_needed { (result ≡ 11) ⊎ (result ≡ 7) → needed.new ≡ needed.old }
    ensures kept_reason { (result ≡ 11) ⊎ (result ≡ 7) → reason.new ≡ reason.old }
{
    ms_calls::script(alloc, consensus, text, script, needed, reason)
}

/// The limits, the height and the type letters of a text that is sane by the limits of policy, or by those of consensus alone.
#[unsafe(no_mangle)]
pub extern "C" fn msat_check(
    alloc: Global,
    consensus: bool,
    text: &[u8],
    facts: &mut Facts,
    reason: &mut Reason,
) -> u32
    ensures code { HoldsOfReply text.now result (facts_given (rules_for consensus)) (λ given. result ≡ code_given given) }
    ensures facts { HoldsOfReply text.now result (facts_given (rules_for consensus)) (λ given. facts.new ≡ value_after facts.old given) }
    ensures reason { HoldsOfReply text.now result (facts_given (rules_for consensus)) (λ given. reason.new ≡ reason_after reason.old given) }
    ensures unreadable { result ≡ 11 ↔ (¬ IsUtf8 text.now) }
    ensures kept { (result ≡ 11) ⊎ (result ≡ 7) → facts.new ≡ facts.old }
    ensures kept_reason { (result ≡ 11) ⊎ (result ≡ 7) → reason.new ≡ reason.old }
{
    ms_calls::check(alloc, consensus, text, facts, reason)
}

/// The least weight of a canonical satisfaction of a valid text by an asset file.
#[unsafe(no_mangle)]
pub extern "C" fn msat_least_weight(
    alloc: Global,
    consensus: bool,
    text: &[u8],
    file: &[u8],
    weight: &mut u64,
    reason: &mut Reason,
) -> u32
    ensures code { HoldsOfReply text.now result (weight_given (rules_for consensus) file.now) (λ given. result ≡ code_given given) }
    ensures weight { HoldsOfReply text.now result (weight_given (rules_for consensus) file.now) (λ given. weight.new ≡ value_after weight.old given) }
    ensures reason { HoldsOfReply text.now result (weight_given (rules_for consensus) file.now) (λ given. reason.new ≡ reason_after reason.old given) }
    ensures unreadable { result ≡ 11 ↔ (¬ IsUtf8 text.now) }
    ensures kept { (result ≡ 11) ⊎ (result ≡ 7) → weight.new ≡ weight.old }
    ensures kept_reason { (result ≡ 11) ⊎ (result ≡ 7) → reason.new ≡ reason.old }
{
    ms_calls::least_weight(alloc, consensus, text, file, weight, reason)
}

/// The items of the witness of a satisfaction of a text by an asset file: the strict one of a sane text, or with `malleable` the
/// cheapest one of a valid text.
#[unsafe(no_mangle)]
pub extern "C" fn msat_witness(
    alloc: Global,
    malleable: bool,
    consensus: bool,
    text: &[u8],
    file: &[u8],
    bytes: &mut [u8],
    needed: &mut usize,
    lengths: &mut [usize],
    count: &mut usize,
    reason: &mut Reason,
) -> u32
    ensures code { HoldsOfReply text.now result (witness_by malleable consensus file.now) (λ given. result ≡ code_given given) }
    ensures bytes { HoldsOfReply text.now result (witness_by malleable consensus file.now) (λ given. bytes.new ≡ bytes_after bytes.old given) }
    ensures needed { HoldsOfReply text.now result (witness_by malleable consensus file.now) (λ given. needed.new ≡ bytes_needed_after needed.old given) }
    ensures lengths { HoldsOfReply text.now result (witness_by malleable consensus file.now) (λ given. lengths.new ≡ lengths_after lengths.old given) }
    ensures count { HoldsOfReply text.now result (witness_by malleable consensus file.now) (λ given. count.new ≡ items_count_after count.old given) }
    ensures reason { HoldsOfReply text.now result (witness_by malleable consensus file.now) (λ given. reason.new ≡ reason_after reason.old given) }
    ensures unreadable { result ≡ 11 ↔ (¬ IsUtf8 text.now) }
    ensures kept { (result ≡ 11) ⊎ (result ≡ 7) → bytes.new ≡ bytes.old }
    ensures kept_needed { (result ≡ 11) ⊎ (result ≡ 7) → needed.new ≡ needed.old }
    ensures kept_lengths { (result ≡ 11) ⊎ (result ≡ 7) → lengths.new ≡ lengths.old }
    ensures kept_count { (result ≡ 11) ⊎ (result ≡ 7) → count.new ≡ count.old }
    ensures kept_reason { (result ≡ 11) ⊎ (result ≡ 7) → reason.new ≡ reason.old }
{
    ms_calls::witness(
        alloc, malleable, consensus, text, file, bytes, needed, lengths, count, reason,
    )
}

/// The items of the witness of a satisfaction of a text by what a wallet holds in arrays, as `msat_witness` gives them by an asset
/// file.
#[unsafe(no_mangle)]
pub extern "C" fn msat_satisfy(
    alloc: Global,
    malleable: bool,
    consensus: bool,
    text: &[u8],
    version: u32,
    sequence: u32,
    locktime: u32,
    keys: &[u8],
    signatures: &[u8],
    signature_lengths: &[usize],
    preimages: &[u8],
    bytes: &mut [u8],
    needed: &mut usize,
    lengths: &mut [usize],
    count: &mut usize,
    reason: &mut Reason,
) -> u32
    ensures code { HoldsOfReply text.now result
        (satisfied_by malleable consensus (assets_of_arrays (locks_of version sequence locktime) keys.now signatures.now signature_lengths.now preimages.now))
        (λ given. result ≡ code_given given) }
    ensures bytes { HoldsOfReply text.now result
        (satisfied_by malleable consensus (assets_of_arrays (locks_of version sequence locktime) keys.now signatures.now signature_lengths.now preimages.now))
        (λ given. bytes.new ≡ bytes_after bytes.old given) }
    ensures needed { HoldsOfReply text.now result
        (satisfied_by malleable consensus (assets_of_arrays (locks_of version sequence locktime) keys.now signatures.now signature_lengths.now preimages.now))
        (λ given. needed.new ≡ bytes_needed_after needed.old given) }
    ensures lengths { HoldsOfReply text.now result
        (satisfied_by malleable consensus (assets_of_arrays (locks_of version sequence locktime) keys.now signatures.now signature_lengths.now preimages.now))
        (λ given. lengths.new ≡ lengths_after lengths.old given) }
    ensures count { HoldsOfReply text.now result
        (satisfied_by malleable consensus (assets_of_arrays (locks_of version sequence locktime) keys.now signatures.now signature_lengths.now preimages.now))
        (λ given. count.new ≡ items_count_after count.old given) }
    ensures reason { HoldsOfReply text.now result
        (satisfied_by malleable consensus (assets_of_arrays (locks_of version sequence locktime) keys.now signatures.now signature_lengths.now preimages.now))
        (λ given. reason.new ≡ reason_after reason.old given) }
    ensures unreadable { result ≡ 11 ↔ (¬ IsUtf8 text.now) }
    ensures kept { (result ≡ 11) ⊎ (result ≡ 7) → bytes.new ≡ bytes.old }
    ensures kept_needed { (result ≡ 11) ⊎ (result ≡ 7) → needed.new ≡ needed.old }
    ensures kept_lengths { (result ≡ 11) ⊎ (result ≡ 7) → lengths.new ≡ lengths.old }
    ensures kept_count { (result ≡ 11) ⊎ (result ≡ 7) → count.new ≡ count.old }
    ensures kept_reason { (result ≡ 11) ⊎ (result ≡ 7) → reason.new ≡ reason.old }
{
    let locks = locks(version, sequence, locktime);
    let arrays = Arrays::new(locks, keys, signatures, signature_lengths, preimages);
    ms_calls::satisfy(
        alloc, malleable, consensus, text, &arrays, bytes, needed, lengths, count, reason,
    )
}

/// The text that a Script is read back as, with keys of 33 bytes, one after the other, for its hashes of keys.
#[unsafe(no_mangle)]
pub extern "C" fn msat_decode(
    alloc: Global,
    script: &[u8],
    keys: &[u8],
    text: &mut [u8],
    needed: &mut usize,
) -> u32
    ensures code { (result ≡ 0) ⊎ ((result ≡ 1) ⊎ ((result ≡ 7) ⊎ (result ≡ 10))) }
    ensures decoded { result ≡ 0 → TellsDecoded (keys_in keys.now) script.now text.old text.new needed.new }
    ensures none { result ≡ 10 → HasNoReading (keys_in keys.now) script.now }
    ensures keys { (result ≡ 0) ⊎ (result ≡ 10) → are_keys keys.now ≡ true }
    ensures usage { result ≡ 1 → are_keys keys.now ≡ false }
    ensures kept { result ≢ 0 → text.new ≡ text.old }
    ensures kept_needed { result ≢ 0 → needed.new ≡ needed.old }
{
    ms_calls::decode(alloc, script, keys, text, needed)
}

/// The printed policy of a text that is sane by the limits of policy, and the least number of keys that have to sign.
#[unsafe(no_mangle)]
pub extern "C" fn msat_policy(
    alloc: Global,
    text: &[u8],
    printed: &mut [u8],
    needed: &mut usize,
    keys: &mut u64,
    reason: &mut Reason,
) -> u32
    ensures code { HoldsOfReply text.now result policy_given (λ given. result ≡ code_given given) }
    ensures printed { HoldsOfReply text.now result policy_given (λ given. printed.new ≡ buffer_after printed.old (printed_given given)) }
    ensures needed { HoldsOfReply text.now result policy_given (λ given. needed.new ≡ needed_after needed.old (printed_given given)) }
    ensures keys { HoldsOfReply text.now result policy_given (λ given. keys.new ≡ value_after keys.old (keys_given given)) }
    ensures reason { HoldsOfReply text.now result policy_given (λ given. reason.new ≡ reason_after reason.old given) }
    ensures unreadable { result ≡ 11 ↔ (¬ IsUtf8 text.now) }
    ensures kept { (result ≡ 11) ⊎ (result ≡ 7) → printed.new ≡ printed.old }
    ensures kept_needed { (result ≡ 11) ⊎ (result ≡ 7) → needed.new ≡ needed.old }
    ensures kept_keys { (result ≡ 11) ⊎ (result ≡ 7) → keys.new ≡ keys.old }
    ensures kept_reason { (result ≡ 11) ⊎ (result ≡ 7) → reason.new ≡ reason.old }
{
    ms_calls::policy(alloc, text, printed, needed, keys, reason)
}

/// Which keys to ask for a signature for a text that is sane by the limits of policy, and what its satisfaction weighs at most then,
/// by what lies in arrays.
#[unsafe(no_mangle)]
pub extern "C" fn msat_plan(
    alloc: Global,
    text: &[u8],
    version: u32,
    sequence: u32,
    locktime: u32,
    keys: &[u8],
    signature_lengths: &[usize],
    preimages: &[u8],
    asked: &mut [u8],
    needed: &mut usize,
    weight: &mut u64,
    reason: &mut Reason,
) -> u32
    ensures code { HoldsOfReply text.now result
        (plan_given (plan_of_arrays (locks_of version sequence locktime) keys.now signature_lengths.now preimages.now))
        (λ given. result ≡ code_given given) }
    ensures asked { HoldsOfReply text.now result
        (plan_given (plan_of_arrays (locks_of version sequence locktime) keys.now signature_lengths.now preimages.now))
        (λ given. asked.new ≡ buffer_after asked.old (asked_keys given)) }
    ensures needed { HoldsOfReply text.now result
        (plan_given (plan_of_arrays (locks_of version sequence locktime) keys.now signature_lengths.now preimages.now))
        (λ given. needed.new ≡ needed_after needed.old (asked_keys given)) }
    ensures weight { HoldsOfReply text.now result
        (plan_given (plan_of_arrays (locks_of version sequence locktime) keys.now signature_lengths.now preimages.now))
        (λ given. weight.new ≡ value_after weight.old (asked_weight given)) }
    ensures reason { HoldsOfReply text.now result
        (plan_given (plan_of_arrays (locks_of version sequence locktime) keys.now signature_lengths.now preimages.now))
        (λ given. reason.new ≡ reason_after reason.old given) }
    ensures unreadable { result ≡ 11 ↔ (¬ IsUtf8 text.now) }
    ensures kept { (result ≡ 11) ⊎ (result ≡ 7) → asked.new ≡ asked.old }
    ensures kept_needed { (result ≡ 11) ⊎ (result ≡ 7) → needed.new ≡ needed.old }
    ensures kept_weight { (result ≡ 11) ⊎ (result ≡ 7) → weight.new ≡ weight.old }
    ensures kept_reason { (result ≡ 11) ⊎ (result ≡ 7) → reason.new ≡ reason.old }
{
    let locks = locks(version, sequence, locktime);
    let arrays = PlanArrays::new(locks, keys, signature_lengths, preimages);
    ms_calls::plan(alloc, text, &arrays, asked, needed, weight, reason)
}

/// The run of a script on a stack, by what lies in arrays: its counts and the good pairs that it passed, or its fault.
#[unsafe(no_mangle)]
pub extern "C" fn msat_run(
    alloc: Global,
    version: u32,
    sequence: u32,
    locktime: u32,
    script: &[u8],
    items: &[u8],
    item_lengths: &[usize],
    keys: &[u8],
    signatures: &[u8],
    signature_lengths: &[usize],
    bytes: &mut [u8],
    needed: &mut usize,
    lengths: &mut [usize],
    count: &mut usize,
    outcome: &mut RunOutcome,
    reason: &mut Reason,
) -> u32
    ensures code { HoldsOfRun result
        (ran_by (locks_of version sequence locktime) (run_arrays script.now items.now item_lengths.now keys.now signatures.now signature_lengths.now))
        (λ given. result ≡ run_code given) }
    ensures bytes { HoldsOfRun result
        (ran_by (locks_of version sequence locktime) (run_arrays script.now items.now item_lengths.now keys.now signatures.now signature_lengths.now))
        (λ given. bytes.new ≡ bytes_after bytes.old (ran_checks given)) }
    ensures needed { HoldsOfRun result
        (ran_by (locks_of version sequence locktime) (run_arrays script.now items.now item_lengths.now keys.now signatures.now signature_lengths.now))
        (λ given. needed.new ≡ bytes_needed_after needed.old (ran_checks given)) }
    ensures lengths { HoldsOfRun result
        (ran_by (locks_of version sequence locktime) (run_arrays script.now items.now item_lengths.now keys.now signatures.now signature_lengths.now))
        (λ given. lengths.new ≡ lengths_after lengths.old (ran_checks given)) }
    ensures count { HoldsOfRun result
        (ran_by (locks_of version sequence locktime) (run_arrays script.now items.now item_lengths.now keys.now signatures.now signature_lengths.now))
        (λ given. count.new ≡ items_count_after count.old (ran_checks given)) }
    ensures outcome { HoldsOfRun result
        (ran_by (locks_of version sequence locktime) (run_arrays script.now items.now item_lengths.now keys.now signatures.now signature_lengths.now))
        (λ given. outcome.new ≡ value_after outcome.old (ran_outcome given)) }
    ensures reason { HoldsOfRun result
        (ran_by (locks_of version sequence locktime) (run_arrays script.now items.now item_lengths.now keys.now signatures.now signature_lengths.now))
        (λ given. reason.new ≡ reason_after reason.old given) }
    ensures kept { result ≡ 7 → bytes.new ≡ bytes.old }
    ensures kept_needed { result ≡ 7 → needed.new ≡ needed.old }
    ensures kept_lengths { result ≡ 7 → lengths.new ≡ lengths.old }
    ensures kept_count { result ≡ 7 → count.new ≡ count.old }
    ensures kept_outcome { result ≡ 7 → outcome.new ≡ outcome.old }
    ensures kept_reason { result ≡ 7 → reason.new ≡ reason.old }
{
    let locks = locks(version, sequence, locktime);
    let arrays = RunArrays {
        script,
        items,
        item_lengths,
        keys,
        signatures,
        signature_lengths,
    };
    ms_calls::run(
        alloc, locks, &arrays, bytes, needed, lengths, count, outcome, reason,
    )
}

/// Whether a stack is accepted for a text that is valid by the limits of policy, and by which rows it satisfies the text, by what
/// lies in arrays.
#[unsafe(no_mangle)]
pub extern "C" fn msat_audit(
    alloc: Global,
    text: &[u8],
    version: u32,
    sequence: u32,
    locktime: u32,
    script: &[u8],
    items: &[u8],
    item_lengths: &[usize],
    keys: &[u8],
    signatures: &[u8],
    signature_lengths: &[usize],
    steps: &mut [PlacedStep],
    count: &mut usize,
    canonical: &mut bool,
    outcome: &mut RunOutcome,
    reason: &mut Reason,
) -> u32
    ensures code { HoldsOfReply text.now result
        (audit_by (locks_of version sequence locktime) (run_arrays script.now items.now item_lengths.now keys.now signatures.now signature_lengths.now))
        (λ given. result ≡ audit_code given) }
    ensures steps { HoldsOfReply text.now result
        (audit_by (locks_of version sequence locktime) (run_arrays script.now items.now item_lengths.now keys.now signatures.now signature_lengths.now))
        (λ given. steps.new ≡ buffer_after steps.old (audited_steps given)) }
    ensures count { HoldsOfReply text.now result
        (audit_by (locks_of version sequence locktime) (run_arrays script.now items.now item_lengths.now keys.now signatures.now signature_lengths.now))
        (λ given. count.new ≡ needed_after count.old (audited_steps given)) }
    ensures canonical { HoldsOfReply text.now result
        (audit_by (locks_of version sequence locktime) (run_arrays script.now items.now item_lengths.now keys.now signatures.now signature_lengths.now))
        (λ given. canonical.new ≡ canonical_after canonical.old given) }
    ensures outcome { HoldsOfReply text.now result
        (audit_by (locks_of version sequence locktime) (run_arrays script.now items.now item_lengths.now keys.now signatures.now signature_lengths.now))
        (λ given. outcome.new ≡ value_after outcome.old (audited_outcome given)) }
    ensures reason { HoldsOfReply text.now result
        (audit_by (locks_of version sequence locktime) (run_arrays script.now items.now item_lengths.now keys.now signatures.now signature_lengths.now))
        (λ given. reason.new ≡ reason_after reason.old given) }
    ensures unreadable { result ≡ 11 ↔ (¬ IsUtf8 text.now) }
    ensures kept { (result ≡ 11) ⊎ (result ≡ 7) → steps.new ≡ steps.old }
    ensures kept_count { (result ≡ 11) ⊎ (result ≡ 7) → count.new ≡ count.old }
    ensures kept_canonical { (result ≡ 11) ⊎ (result ≡ 7) → canonical.new ≡ canonical.old }
    ensures kept_outcome { (result ≡ 11) ⊎ (result ≡ 7) → outcome.new ≡ outcome.old }
    ensures kept_reason { (result ≡ 11) ⊎ (result ≡ 7) → reason.new ≡ reason.old }
{
    let locks = locks(version, sequence, locktime);
    let arrays = RunArrays {
        script,
        items,
        item_lengths,
        keys,
        signatures,
        signature_lengths,
    };
    ms_calls::audit(
        alloc, text, locks, &arrays, steps, count, canonical, outcome, reason,
    )
}

/// What a signature with the byte of its hash type behind it is, by a key and for a hash: bad, good, or good but for its high s.
#[unsafe(no_mangle)]
pub extern "C" fn msat_signature(key: &[u8], hash: &[u8], sig: &[u8]) -> u32
    ensures { result ≡ judgement_code (judge key.now hash.now sig.now) }
{
    ms_calls::signature(key, hash, sig)
}

/// The point of a key, as 65 bytes.
#[unsafe(no_mangle)]
pub extern "C" fn msat_point(key: &[u8], point: &mut [u8], needed: &mut usize) -> u32
    ensures code { result ≡ point_code (point_bytes key.now) }
    ensures point { point.new ≡ point_after point.old (point_bytes key.now) }
    ensures needed { needed.new ≡ point_needed_after needed.old (point_bytes key.now) }
{
    ms_calls::point(key, point, needed)
}

/// The values of the locks: the transaction's version, the input's sequence number and the transaction's locktime.
fn locks(version: u32, sequence: u32, locktime: u32) -> Locks
    ensures { result ≡ locks_of version sequence locktime }
{
    Locks {
        version,
        sequence,
        locktime,
    }
}
