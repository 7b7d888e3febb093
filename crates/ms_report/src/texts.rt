//! The lines of texts that are refused.
ghost use Rattle.std.specs.Prelude.{◌≡◌, ◌≢◌, IfOk};
ghost use Rattle.std.specs.String.{string_bytes};
ghost use Rattle.ms_tree.specs.Shape.{shape};
ghost use Rattle.ms_sane.specs.Place.{IsOfTree};
ghost use Rattle.def_answer.specs.Lines.{text_line as the_text_line, unfit_line as the_unfit_line};

use crate::names::rule_name;
use def_text::TextFault;
use ms_sane::Unfit;
use ms_text::TextTree;
use std::alloc::{AllocError, Global};

/// The line of a text's refusal: its name, and the place in the text. Its `Memory` has no line: it is answered as want of
/// memory. `AllocError` comes only where memory is wanting.
pub fn text_line(alloc: Global, fault: TextFault) -> Result<String, AllocError>
    ensures line { IfOk result (λ line. string_bytes line ≡ the_text_line fault) }
    ensures known { IfOk result (λ line. fault ≢ TextFault.Memory) }
{
    match fault {
        TextFault::TooLong => String::from_str(alloc, "refused text TooLong\n"),
        TextFault::Syntax(at) => format!(in alloc; "refused text Syntax at {at}\n"),
        TextFault::TooDeep(at) => format!(in alloc; "refused text TooDeep at {at}\n"),
        TextFault::Memory => Err(AllocError),
    }
}

/// The line of a reason against the tree of a text: its name, and the place of its node in the text. It demands that
/// the node is one of the tree. `AllocError` comes only where memory is wanting.
pub fn unfit_line(alloc: Global, text: &TextTree<'_>, unfit: Unfit) -> Result<String, AllocError>
    requires { IsOfTree (shape text.now.tree) unfit }
    ensures { IfOk result (λ report. string_bytes report ≡ the_unfit_line text.now.offsets.items unfit) }
{
    match unfit {
        Unfit::Rule(at) => {
            let (name, place) = (rule_name(at.rule), text.offset(at.node));
            format!(in alloc; "refused text Rule {name} at {place}\n")
        }
        Unfit::TopNotB => String::from_str(alloc, "refused text TopNotB\n"),
        Unfit::Size(n) => format!(in alloc; "refused text Size {n}\n"),
        Unfit::Ops(n) => format!(in alloc; "refused text Ops {n}\n"),
        Unfit::Items(n) => format!(in alloc; "refused text Items {n}\n"),
        Unfit::Malleable(at) => {
            let (name, place) = (rule_name(at.rule), text.offset(at.node));
            format!(in alloc; "refused text Malleable {name} at {place}\n")
        }
        Unfit::NoSignature => String::from_str(alloc, "refused text NoSignature\n"),
        Unfit::MixedLocks(node) => {
            let place = text.offset(node);
            format!(in alloc; "refused text MixedLocks at {place}\n")
        }
        Unfit::RepeatedKey(node) => {
            let place = text.offset(node);
            format!(in alloc; "refused text RepeatedKey at {place}\n")
        }
    }
}
