//! What is answered to a text whose tree is asked for.
ghost use Rattle.std.specs.Prelude.{◌≡◌, ◌++◌, IfOk, OnOk};
ghost use Rattle.std.specs.String.{string_bytes};
ghost use Rattle.def_tree.specs.InRange.{IsInRange};
ghost use Rattle.def_answer.specs.Answer.{tree_reply};
ghost use Rattle.def_answer.specs.Lines.{unfit_line as the_unfit_line};
ghost use Rattle.def_answer.specs.Outline.{fits_line};
ghost use Rattle.def_answer.specs.Reply.{reply};
ghost use Rattle.ms_sane.specs.Place.{IsOfTree};
ghost use Rattle.ms_tree.specs.Shape.{shape};

use def_answer::Status;
use ms_outline::{push_fit, push_outline};
use ms_report::{Answer, unfit_line};
use ms_sane::{Misfit, Rules, SaneTree, Unfit};
use ms_text::TextTree;
use std::alloc::{AllocError, Global};

/// The nodes of a text's tree, each with the type of what stands below it alone; where the tree isn't sane the first reason
/// against it, and where a letter lets the node pass that breaks a rule, which one: what `tree` answers. `AllocError` comes
/// only where memory is wanting.
#[tactic(auto, unfolding(def_answer::specs::Outline::unfit_report))]
pub fn tree_answer(alloc: Global, rules: Rules, text: &TextTree<'_>) -> Result<Answer, AllocError>
    requires { IsInRange (shape text.now.tree) }
    ensures { IfOk result (λ answer. reply answer.status (string_bytes answer.report) ≡ tree_reply rules text.now.offsets.items (shape text.now.tree)) }
{
    let mut report = String::new(alloc);
    push_outline(alloc, &mut report, text)?;
    match SaneTree::new(alloc, text.tree, rules) {
        Ok(_sane) => Ok(Answer {
            status: Status::Done,
            report,
        }),
        Err(Misfit::Memory) => Err(AllocError),
        Err(Misfit::Unfit(unfit)) => {
            push_reason(alloc, &mut report, text, unfit)?;
            Ok(Answer {
                status: Status::TextRefused,
                report,
            })
        }
    }
}

/// Adds a reason against a tree, and which letter lets the node pass that breaks a rule.
fn push_reason(
    alloc: Global,
    report: &mut String,
    text: &TextTree<'_>,
    unfit: Unfit,
) -> Result<(), AllocError>
    requires range { IsInRange (shape text.now.tree) }
    requires place { IsOfTree (shape text.now.tree) unfit }
    ensures { OnOk result (string_bytes report.new ≡ string_bytes report.old ++ (the_unfit_line text.now.offsets.items unfit ++ fits_line text.now.offsets.items (shape text.now.tree) unfit)) }
{
    report.push_str(&unfit_line(alloc, text, unfit)?)?;
    match unfit {
        Unfit::Rule(at) => push_fit(alloc, report, text, at.node),
        _ => Ok(()),
    }
}
