//! What is answered to a text.
ghost use Rattle.std.specs.Prelude.{◌≡◌, ◌≢◌, ◌≤◌, Option, IfOk};
ghost use Rattle.std.specs.String.{string_bytes};
ghost use Rattle.def_tree.specs.InRange.{IsInRange};
ghost use Rattle.def_tree.specs.Tree.{Tree};
ghost use Rattle.def_sane.specs.declared.Unfit.{Unfit as TheUnfit};
ghost use Rattle.def_sane.specs.Unfit.{first_unfit, first_unfit_under, first_unfit_valid_under};
ghost use Rattle.ms_tree.specs.Shape.{shape};
ghost use Rattle.ms_sane.specs.Misfits.{IsMisfit};
ghost use Rattle.ms_sane.specs.Place.{IsOfTree};
ghost use Rattle.def_answer.specs.Answer.{script_reply, asm_reply, tree_reply, no_reason, check_reply, policy_reply};
ghost use Rattle.def_answer.specs.Lines.{unfit_line as the_unfit_line};
ghost use Rattle.def_answer.specs.Reply.{reply};
ghost use Rattle.def_answer.specs.Sources.{NeedsSource};
ghost use Rattle.ms_words.specs.Commands.{command_of};
ghost use Rattle.ms_io.specs.Sides.{side};
ghost use Rattle.ms_io.specs.Reads.{ReadsFront, IsUnread};
ghost use Rattle.msat_cli.specs.Scaffolding.Steps.{ReadsFor, AsDone, IsRefusal, Ended, EndsAtOnce, EndsTree, EndsCommand, RefusesTree};

use crate::answer::{Stop, or_memory};
use crate::source::{answer_sane_plan, answer_satisfaction, answer_text_trace, answer_valid_audit};
use bumpalo::Bump;
use def_answer::Status;
use def_choice::Choice;
use def_text::TextFault;
use ms_io::Source;
use ms_replies::{ChoiceTree, asm_report, tree_answer};
use ms_report::{Answer, check_report, policy_report, script_report, text_line, unfit_line};
use ms_sane::{Misfit, Rules, SaneTree, Unfit, ValidTree};
use ms_text::{TextTree, read_text};
use ms_words::TextCommand;
use std::alloc::{AllocError, Global};

/// Answers a command on a text: the text's refusal, or what is answered to its tree, which lies in the arena.
pub fn answer_text<S: Source>(
    alloc: Global,
    arena: &Bump<Global>,
    kind: TextCommand,
    text: &str,
    source: &mut S,
) -> Result<Answer, Stop>
    ensures answer { EndsCommand (command_of kind text.now) (side S.left S.faults source.old source.new) result }
    ensures later { S.faults source.old ≤ S.faults source.new }
    ensures front { ReadsFront (S.left source.old) (S.left source.new) }
    ensures unread { ¬ NeedsSource (command_of kind text.now) → IsUnread (side S.left S.faults source.old source.new) }
{
    match read_text(alloc, arena, text) {
        Ok(text) => answer_tree(alloc, kind, &text, source),
        Err(fault) => refuse_text(alloc, fault),
    }
}

/// Answers a command on a text that was read: the first reason against its tree, or what the command does with it.
fn answer_tree<S: Source>(
    alloc: Global,
    kind: TextCommand,
    text: &TextTree<'_>,
    source: &mut S,
) -> Result<Answer, Stop>
    requires { IsInRange (shape text.now.tree) }
    ensures answer { EndsTree kind (shape text.now.tree) text.now.offsets.items (side S.left S.faults source.old source.new) result }
    ensures later { S.faults source.old ≤ S.faults source.new }
    ensures front { ReadsFront (S.left source.old) (S.left source.new) }
    ensures unread { ¬ ReadsFor kind (shape text.now.tree) → IsUnread (side S.left S.faults source.old source.new) }
{
    match kind {
        TextCommand::Script(rules) => answer_script(alloc, rules, text),
        TextCommand::Asm(rules) => answer_asm(alloc, rules, text),
        TextCommand::Tree(rules) => answer_outline(alloc, rules, text),
        TextCommand::Check(rules) => answer_check(alloc, rules, text),
        TextCommand::Policy => answer_policy(alloc, text),
        TextCommand::Satisfy(choice, rules) => answer_satisfy(alloc, choice, rules, text, source),
        TextCommand::Plan => answer_plan(alloc, text, source),
        TextCommand::Audit => answer_audit(alloc, text, source),
        TextCommand::Trace => answer_traced(alloc, text, source),
    }
}

/// Answers with the Script of a valid text.
fn answer_script(alloc: Global, rules: Rules, text: &TextTree<'_>) -> Result<Answer, Stop>
    requires { IsInRange (shape text.now.tree) }
    ensures { EndsAtOnce (first_unfit_valid_under rules) script_reply (shape text.now.tree) text.now.offsets.items result }
{
    match ValidTree::new(alloc, text.tree, rules) {
        Ok(valid) => done(script_report(alloc, &valid.tree)),
        Err(misfit) => refuse_tree(alloc, text, misfit),
    }
}

/// Answers with the instructions of the Script of a valid text.
fn answer_asm(alloc: Global, rules: Rules, text: &TextTree<'_>) -> Result<Answer, Stop>
    requires { IsInRange (shape text.now.tree) }
    ensures { EndsAtOnce (first_unfit_valid_under rules) (asm_reply text.now.offsets.items) (shape text.now.tree) text.now.offsets.items result }
{
    match ValidTree::new(alloc, text.tree, rules) {
        Ok(_valid) => done(asm_report(alloc, text)),
        Err(misfit) => refuse_tree(alloc, text, misfit),
    }
}

/// Answers with the nodes of a text's tree, and, where it isn't sane, with the first reason against it.
fn answer_outline(alloc: Global, rules: Rules, text: &TextTree<'_>) -> Result<Answer, Stop>
    requires { IsInRange (shape text.now.tree) }
    ensures { EndsAtOnce no_reason (tree_reply rules text.now.offsets.items) (shape text.now.tree) text.now.offsets.items result }
{
    or_memory(tree_answer(alloc, rules, text))
}

/// Answers with what is known of a sane text.
fn answer_check(alloc: Global, rules: Rules, text: &TextTree<'_>) -> Result<Answer, Stop>
    requires { IsInRange (shape text.now.tree) }
    ensures { EndsAtOnce (first_unfit_under rules) (check_reply rules) (shape text.now.tree) text.now.offsets.items result }
{
    match SaneTree::new(alloc, text.tree, rules) {
        Ok(mut sane) => done(check_report(alloc, &mut sane)),
        Err(misfit) => refuse_tree(alloc, text, misfit),
    }
}

/// Answers with what a sane text demands.
fn answer_policy(alloc: Global, text: &TextTree<'_>) -> Result<Answer, Stop>
    requires { IsInRange (shape text.now.tree) }
    ensures { EndsAtOnce first_unfit policy_reply (shape text.now.tree) text.now.offsets.items result }
{
    match SaneTree::new(alloc, text.tree, Rules::Policy) {
        Ok(sane) => done(policy_report(alloc, &sane)),
        Err(misfit) => refuse_tree(alloc, text, misfit),
    }
}

/// The answer with a report of what was done.
fn done(report: Result<String, AllocError>) -> Result<Answer, Stop>
    ensures { AsDone string_bytes report result }
{
    match report {
        Ok(report) => Ok(Answer {
            status: Status::Done,
            report,
        }),
        Err(_) => Err(Stop::Memory),
    }
}

/// Answers with the satisfaction of a text by the assets of the file that the source holds.
fn answer_satisfy<S: Source>(
    alloc: Global,
    choice: Choice,
    rules: Rules,
    text: &TextTree<'_>,
    source: &mut S,
) -> Result<Answer, Stop>
    requires { IsInRange (shape text.now.tree) }
    ensures answer { EndsTree (TextCommand.Satisfy choice rules) (shape text.now.tree) text.now.offsets.items (side S.left S.faults source.old source.new) result }
    ensures later { S.faults source.old ≤ S.faults source.new }
    ensures front { ReadsFront (S.left source.old) (S.left source.new) }
    ensures unread { ¬ ReadsFor (TextCommand.Satisfy choice rules) (shape text.now.tree) → IsUnread (side S.left S.faults source.old source.new) }
{
    match ChoiceTree::new(alloc, choice, rules, text.tree) {
        Ok(mut tree) => answer_satisfaction(alloc, &mut tree, source),
        Err(misfit) => refuse_tree(alloc, text, misfit),
    }
}

/// Answers which keys to ask for a signature for a sane text, by the plan file that the source holds.
fn answer_plan<S: Source>(
    alloc: Global,
    text: &TextTree<'_>,
    source: &mut S,
) -> Result<Answer, Stop>
    requires { IsInRange (shape text.now.tree) }
    ensures answer { EndsTree TextCommand.Plan (shape text.now.tree) text.now.offsets.items (side S.left S.faults source.old source.new) result }
    ensures later { S.faults source.old ≤ S.faults source.new }
    ensures front { ReadsFront (S.left source.old) (S.left source.new) }
    ensures unread { ¬ ReadsFor TextCommand.Plan (shape text.now.tree) → IsUnread (side S.left S.faults source.old source.new) }
{
    match SaneTree::new(alloc, text.tree, Rules::Policy) {
        Ok(sane) => answer_sane_plan(alloc, &sane, source),
        Err(misfit) => refuse_tree(alloc, text, misfit),
    }
}

/// Answers how the stack of the run file that the source holds satisfies a valid text.
fn answer_audit<S: Source>(
    alloc: Global,
    text: &TextTree<'_>,
    source: &mut S,
) -> Result<Answer, Stop>
    requires { IsInRange (shape text.now.tree) }
    ensures answer { EndsTree TextCommand.Audit (shape text.now.tree) text.now.offsets.items (side S.left S.faults source.old source.new) result }
    ensures later { S.faults source.old ≤ S.faults source.new }
    ensures front { ReadsFront (S.left source.old) (S.left source.new) }
    ensures unread { ¬ ReadsFor TextCommand.Audit (shape text.now.tree) → IsUnread (side S.left S.faults source.old source.new) }
{
    match ValidTree::new(alloc, text.tree, Rules::Policy) {
        Ok(_valid) => answer_valid_audit(alloc, text, source),
        Err(misfit) => refuse_tree(alloc, text, misfit),
    }
}

/// Answers the trace of the run of the run file that the source holds, which has to be of the Script of a valid text.
fn answer_traced<S: Source>(
    alloc: Global,
    text: &TextTree<'_>,
    source: &mut S,
) -> Result<Answer, Stop>
    requires { IsInRange (shape text.now.tree) }
    ensures answer { EndsTree TextCommand.Trace (shape text.now.tree) text.now.offsets.items (side S.left S.faults source.old source.new) result }
    ensures later { S.faults source.old ≤ S.faults source.new }
    ensures front { ReadsFront (S.left source.old) (S.left source.new) }
    ensures unread { ¬ ReadsFor TextCommand.Trace (shape text.now.tree) → IsUnread (side S.left S.faults source.old source.new) }
{
    match ValidTree::new(alloc, text.tree, Rules::Policy) {
        Ok(_valid) => answer_text_trace(alloc, text, source),
        Err(misfit) => refuse_tree(alloc, text, misfit),
    }
}

/// The refusal of a tree that doesn't pass.
fn refuse_tree(alloc: Global, text: &TextTree<'_>, misfit: Misfit) -> Result<Answer, Stop>
    requires { (first_reason : Tree → Option TheUnfit) × IsMisfit first_reason (shape text.now.tree) misfit }
    ensures { (first_reason : Tree → Option TheUnfit) → IsMisfit first_reason (shape text.now.tree) misfit → RefusesTree first_reason (shape text.now.tree) text.now.offsets.items result }
{
    match misfit {
        Misfit::Unfit(unfit) => or_memory(unfit_answer(alloc, text, unfit)),
        Misfit::Memory => Err(Stop::Memory),
    }
}

/// The refusal of a tree for a reason against it.
fn unfit_answer(alloc: Global, text: &TextTree<'_>, unfit: Unfit) -> Result<Answer, AllocError>
    requires { IsOfTree (shape text.now.tree) unfit }
    ensures { IfOk result (λ answer. reply answer.status (string_bytes answer.report) ≡ reply Status.TextRefused (the_unfit_line text.now.offsets.items unfit)) }
{
    Ok(Answer {
        status: Status::TextRefused,
        report: unfit_line(alloc, text, unfit)?,
    })
}

/// The refusal of a text.
fn refuse_text(alloc: Global, fault: TextFault) -> Result<Answer, Stop>
    ensures { Ended (IsRefusal fault) ⊥ (fault ≢ TextFault.TooLong) result }
{
    let line = match fault {
        TextFault::TooLong => return Err(Stop::TextTooLong),
        fault => text_line(alloc, fault),
    };
    match line {
        Ok(report) => Ok(Answer {
            status: Status::TextRefused,
            report,
        }),
        Err(_) => Err(Stop::Memory),
    }
}
