//! What is printed of a tree that passed.
ghost use Rattle.std.specs.Prelude.{◌≡◌, IfOk};
ghost use Rattle.std.specs.String.{string_bytes};
ghost use Rattle.def_tree.specs.InRange.{IsInRange};
ghost use Rattle.ms_tree.specs.Shape.{shape};
ghost use Rattle.def_answer.specs.Script.{script_report as the_script_report};
ghost use Rattle.def_answer.specs.Check.{check_report as the_check_report, type_letters as the_type_letters};
ghost use Rattle.def_answer.specs.Decode.{decode_report as the_decode_report};

use crate::limits::{bounds_line, bounds_of};
use crate::lines::{push_line, push_output};
use ms_emit::script_bytes;
use ms_outline::push_letters;
use ms_print::print_text;
use ms_program::program_of;
use ms_sane::SaneTree;
use ms_tree::Tree;
use ms_types::{CorrectnessType, MalleabilityProperties};
use std::alloc::{AllocError, Global};

/// The Script of a tree (BIP 379) in lower-case digits: what `script` prints. `AllocError` comes only where memory is
/// wanting.
#[tactic(auto, unfolding(def_answer::specs::Script::script_report))]
pub fn script_report(alloc: Global, tree: &Tree<'_>) -> Result<String, AllocError>
    requires { IsInRange (shape tree.now) }
    ensures { IfOk result (λ report. string_bytes report ≡ the_script_report (shape tree.now)) }
{
    let script = script_bytes(alloc, tree)?;
    let mut report = hex::encode(alloc, script.as_slice())?;
    report.push('\n')?;
    Ok(report)
}

/// The printed form, the type, the Script, its program and the limits of a sane tree: what `check` prints. `AllocError` comes
/// only where memory is wanting.
pub fn check_report(alloc: Global, sane: &mut SaneTree<'_>) -> Result<String, AllocError>
    ensures { IfOk result (λ report. string_bytes report ≡ the_check_report sane.old.valid.rules (shape sane.old.valid.tree)) }
{
    let tree = sane.valid.tree;
    let mut report = String::new(alloc);
    push_line(&mut report, "text ", &print_text(alloc, &tree)?)?;
    push_line(
        &mut report,
        "type ",
        &type_letters(alloc, sane.valid.ty, sane.malleability_of)?,
    )?;
    let script = script_bytes(alloc, &tree)?;
    let program = program_of(script.as_slice());
    push_output(alloc, &mut report, script.as_slice(), &program)?;
    let bounds = bounds_of(&mut sane.valid);
    report.push_str(&bounds_line(alloc, bounds)?)?;
    Ok(report)
}

/// The printed form of a tree that a Script was read back as: what `decode` prints. `AllocError` comes only where
/// memory is wanting.
#[tactic(auto, unfolding(def_answer::specs::Decode::decode_report))]
pub fn decode_report(alloc: Global, tree: &Tree<'_>) -> Result<String, AllocError>
    requires { IsInRange (shape tree.now) }
    ensures { IfOk result (λ report. string_bytes report ≡ the_decode_report (shape tree.now)) }
{
    let mut report = String::new(alloc);
    push_line(&mut report, "text ", &print_text(alloc, tree)?)?;
    Ok(report)
}

/// The base type's letter, and those of the properties that hold, as `check` prints them. `AllocError` comes only where memory is
/// wanting.
pub fn type_letters(
    alloc: Global,
    ty: CorrectnessType,
    malleability_of: MalleabilityProperties,
) -> Result<String, AllocError>
    ensures { IfOk result (λ letters. string_bytes letters ≡ the_type_letters ty malleability_of) }
{
    let mut letters = String::new(alloc);
    push_letters(&mut letters, ty, malleability_of)?;
    Ok(letters)
}
