//! The Script of a text, and what is known of it.
ghost use Rattle.std.specs.Prelude.{◌≡◌, ◌⊎◌, ◌↔◌, Option, None, IsUtf8, IfOk, IfErr, MatchResult, Ok, Err};
ghost use Rattle.def_tree.specs.InRange.{IsInRange};
ghost use Rattle.def_tree.specs.Tree.{Tree};
ghost use Rattle.def_text.specs.Refusal.{TextReads};
ghost use Rattle.def_emit.specs.Emit.{script_of};
ghost use Rattle.def_sane.specs.declared.Unfit.{Unfit as TheUnfit};
ghost use Rattle.def_sane.specs.Unfit.{first_unfit_under, first_unfit_valid_under, IsValidUnder, IsSaneUnder};
ghost use Rattle.ms_tree.specs.Shape.{shape};
ghost use Rattle.ms_sane.specs.Misfits.{IsMisfit};
ghost use Rattle.def_answer.specs.Satisfy.{chosen_by, reason_by};
ghost use Rattle.ms_replies.specs.ChoiceTrees.{tree_in, chosen_in};
ghost use Rattle.ms_calls.specs.Facts.{facts_of};
ghost use Rattle.ms_calls.specs.TextReply.{HoldsOfReply, told, rules_for as the_rules_for, unless_unfit, script_given, facts_given};
ghost use Rattle.ms_calls.specs.TextReply.{code_given, reason_after, value_after, buffer_after, needed_after};
ghost use Rattle.ms_calls.specs.Stops.{Finds, FindsOf, StopsReading, StopsFitting, refusal as the_refusal};

use crate::copying::write_over;
use crate::facts::Facts;
use crate::reason::{Reason, code_of_fault, code_of_reason};
use crate::stopping::{DONE, Stop};
use bumpalo::Bump;
use def_choice::Choice;
use ms_emit::script_bytes;
use ms_height::height;
use ms_replies::ChoiceTree;
use ms_sane::{Misfit, Rules, SaneTree, ValidTree};
use ms_script::Blob;
use ms_text::{TextFault, TextTree, read_text};
use std::alloc::{AllocError, Global};

/// The Script of a text that is valid by the limits of policy, or by those of consensus alone.
///
/// The Script's beginning is written over the buffer's, as far as there is room, and `needed` is how many bytes it has. The
/// answer is 0; 2 where the text is refused, for this reason; 7 where memory was wanting; and 11 where the text isn't UTF-8.
/// What an answer doesn't speak of is as it was.
pub fn script(
    alloc: Global,
    consensus: bool,
    text: &[u8],
    script: &mut [u8],
    needed: &mut usize,
    reason: &mut Reason,
) -> u32
    ensures code { HoldsOfReply text.now result (script_given (the_rules_for consensus)) (λ given. result ≡ code_given given) }
    ensures script { HoldsOfReply text.now result (script_given (the_rules_for consensus)) (λ given. script.new ≡ buffer_after script.old given) }
    ensures needed { HoldsOfReply text.now result (script_given (the_rules_for consensus)) (λ given. needed.new ≡ needed_after needed.old given) }
    ensures reason { HoldsOfReply text.now result (script_given (the_rules_for consensus)) (λ given. reason.new ≡ reason_after reason.old given) }
    ensures unreadable { result ≡ 11 ↔ (¬ IsUtf8 text.now) }
    ensures kept { (result ≡ 11) ⊎ (result ≡ 7) → script.new ≡ script.old }
    ensures kept_needed { (result ≡ 11) ⊎ (result ≡ 7) → needed.new ≡ needed.old }
    ensures kept_reason { (result ≡ 11) ⊎ (result ≡ 7) → reason.new ≡ reason.old }
{
    match script_in(alloc, rules_for(consensus), text) {
        Ok(found) => {
            *needed = found.as_slice().len();
            let _count = write_over(found.as_slice(), script);
            DONE
        }
        Err(stop) => stop.tell(reason),
    }
}

/// The limits, the height and the type letters of a text that is sane by the limits of policy, or by those of consensus alone.
///
/// The answer is 0; 2 where the text is refused, for this reason; 7 where memory was wanting; and 11 where the text isn't UTF-8.
/// What an answer doesn't speak of is as it was.
pub fn check(
    alloc: Global,
    consensus: bool,
    text: &[u8],
    facts: &mut Facts,
    reason: &mut Reason,
) -> u32
    ensures code { HoldsOfReply text.now result (facts_given (the_rules_for consensus)) (λ given. result ≡ code_given given) }
    ensures facts { HoldsOfReply text.now result (facts_given (the_rules_for consensus)) (λ given. facts.new ≡ value_after facts.old given) }
    ensures reason { HoldsOfReply text.now result (facts_given (the_rules_for consensus)) (λ given. reason.new ≡ reason_after reason.old given) }
    ensures unreadable { result ≡ 11 ↔ (¬ IsUtf8 text.now) }
    ensures kept { (result ≡ 11) ⊎ (result ≡ 7) → facts.new ≡ facts.old }
    ensures kept_reason { (result ≡ 11) ⊎ (result ≡ 7) → reason.new ≡ reason.old }
{
    match facts_in(alloc, rules_for(consensus), text) {
        Ok(found) => {
            *facts = found;
            DONE
        }
        Err(stop) => stop.tell(reason),
    }
}

/// The limits that hold.
pub fn rules_for(consensus: bool) -> Rules
    ensures { result ≡ the_rules_for consensus }
{
    if consensus {
        Rules::Consensus
    } else {
        Rules::Policy
    }
}

/// The Script of a text.
fn script_in(alloc: Global, rules: Rules, text: &[u8]) -> Result<Blob, Stop>
    ensures { FindsOf text.now (script_given rules) result }
{
    let arena = Bump::new(alloc);
    match read(alloc, &arena, text) {
        Ok(text) => script_of_text(alloc, rules, &text),
        Err(stop) => Err(stop),
    }
}

/// The Script of a text that was read.
fn script_of_text(alloc: Global, rules: Rules, text: &TextTree<'_>) -> Result<Blob, Stop>
    requires { IsInRange (shape text.now.tree) }
    ensures { Finds (unless_unfit (first_unfit_valid_under rules (shape text.now.tree)) text.now.offsets.items (told (script_of (shape text.now.tree)))) result }
{
    let valid = valid_of(alloc, text, rules)?;
    or_memory(script_bytes(alloc, &valid.tree))
}

/// Bytes that take memory alone.
pub fn or_memory(bytes: Result<Blob, AllocError>) -> Result<Blob, Stop>
    ensures { MatchResult bytes (λ found. result ≡ Ok found) (λ _. result ≡ Err Stop.Memory) }
{
    match bytes {
        Ok(bytes) => Ok(bytes),
        Err(AllocError) => Err(Stop::Memory),
    }
}

/// What is known of a text.
fn facts_in(alloc: Global, rules: Rules, text: &[u8]) -> Result<Facts, Stop>
    ensures { FindsOf text.now (facts_given rules) result }
{
    let arena = Bump::new(alloc);
    match read(alloc, &arena, text) {
        Ok(text) => facts_of_text(alloc, rules, &text),
        Err(stop) => Err(stop),
    }
}

/// What is known of a text that was read.
fn facts_of_text(alloc: Global, rules: Rules, text: &TextTree<'_>) -> Result<Facts, Stop>
    requires { IsInRange (shape text.now.tree) }
    ensures { Finds (unless_unfit (first_unfit_under rules (shape text.now.tree)) text.now.offsets.items (told (facts_of (shape text.now.tree)))) result }
{
    let mut sane = sane_of(alloc, text, rules)?;
    let valid = &mut sane.valid;
    let tree = valid.tree;
    let height = height(&tree, &mut valid.work);
    Ok(Facts::new(&sane, height))
}

/// The tree of a text as a valid one, or the stop for the first reason against it.
pub fn valid_of<'a>(alloc: Global, text: &TextTree<'a>, rules: Rules) -> Result<ValidTree<'a>, Stop>
    requires { IsInRange (shape text.now.tree) }
    ensures tree { IfOk result (λ valid. valid.tree ≡ text.now.tree) }
    ensures valid { IfOk result (λ valid. IsValidUnder rules (shape text.now.tree)) }
    ensures stop { IfErr result (StopsFitting (first_unfit_valid_under rules (shape text.now.tree)) text.now.offsets.items) }
{
    match ValidTree::new(alloc, text.tree, rules) {
        Ok(valid) => Ok(valid),
        Err(misfit) => Err(misfit_stop(text, misfit)),
    }
}

/// The tree of a text as a sane one, or the stop for the first reason against it.
pub fn sane_of<'a>(alloc: Global, text: &TextTree<'a>, rules: Rules) -> Result<SaneTree<'a>, Stop>
    requires { IsInRange (shape text.now.tree) }
    ensures tree { IfOk result (λ sane. sane.valid.tree ≡ text.now.tree) }
    ensures sane { IfOk result (λ sane. IsSaneUnder rules (shape text.now.tree)) }
    ensures stop { IfErr result (StopsFitting (first_unfit_under rules (shape text.now.tree)) text.now.offsets.items) }
{
    match SaneTree::new(alloc, text.tree, rules) {
        Ok(sane) => Ok(sane),
        Err(misfit) => Err(misfit_stop(text, misfit)),
    }
}

/// The tree of a text as one of which a satisfaction is chosen, or the stop for the first reason against it.
pub fn choice_of<'a>(
    alloc: Global,
    text: &TextTree<'a>,
    choice: Choice,
    rules: Rules,
) -> Result<ChoiceTree<'a>, Stop>
    requires { IsInRange (shape text.now.tree) }
    ensures tree { IfOk result (λ tree. tree_in tree ≡ shape text.now.tree) }
    ensures chosen { IfOk result (λ tree. chosen_in tree ≡ chosen_by choice) }
    ensures passed { IfOk result (λ tree. reason_by choice rules (shape text.now.tree) ≡ None) }
    ensures stop { IfErr result (StopsFitting (reason_by choice rules (shape text.now.tree)) text.now.offsets.items) }
{
    match ChoiceTree::new(alloc, choice, rules, text.tree) {
        Ok(tree) => Ok(tree),
        Err(misfit) => Err(misfit_stop(text, misfit)),
    }
}

/// The stop of a text whose tree doesn't pass.
fn misfit_stop(text: &TextTree<'_>, misfit: Misfit) -> Stop
    requires { (first_reason : Tree → Option TheUnfit) × IsMisfit first_reason (shape text.now.tree) misfit }
    ensures { (first_reason : Tree → Option TheUnfit) → IsMisfit first_reason (shape text.now.tree) misfit → StopsFitting (first_reason (shape text.now.tree)) text.now.offsets.items result }
{
    match misfit {
        Misfit::Unfit(unfit) => Stop::TextRefused(code_of_reason(text, unfit)),
        Misfit::Memory => Stop::Memory,
    }
}

/// Reads a text, whose tree lies in the arena.
pub fn read<'a>(alloc: Global, arena: &'a Bump<Global>, text: &[u8]) -> Result<TextTree<'a>, Stop>
    ensures read { IfOk result (λ t. TextReads text.now (shape t.tree) t.offsets.items) }
    ensures utf8 { IfOk result (λ t. IsUtf8 text.now) }
    ensures in_range { IfOk result (λ t. IsInRange (shape t.tree)) }
    ensures stop { IfErr result (StopsReading text.now) }
{
    let Ok(text) = str::from_utf8(text) else {
        return Err(Stop::Unreadable);
    };
    match read_text(alloc, arena, text) {
        Ok(text) => Ok(text),
        Err(fault) => Err(refusal(fault)),
    }
}

/// The stop of a text that is refused.
fn refusal(fault: TextFault) -> Stop
    ensures { result ≡ the_refusal fault }
{
    match fault {
        TextFault::Memory => Stop::Memory,
        TextFault::TooLong | TextFault::Syntax(_) | TextFault::TooDeep(_) => {
            Stop::TextRefused(code_of_fault(fault))
        }
    }
}
