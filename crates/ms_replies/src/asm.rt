//! What is printed of the instructions of a text's Script.
ghost use Rattle.std.specs.Prelude.{◌≡◌, IfOk};
ghost use Rattle.std.specs.String.{string_bytes};
ghost use Rattle.def_tree.specs.InRange.{IsInRange};
ghost use Rattle.ms_tree.specs.Shape.{shape};
ghost use Rattle.def_answer.specs.Asm.{asm_report as the_asm_report};

use ms_emit::script_bytes;
use ms_text::TextTree;
use ms_trace::list_instructions;
use ms_writers::places;
use std::alloc::{AllocError, Global};

/// The instructions of the Script of a text, each with the offset of its first byte and the place of the node that wrote it:
/// what `asm` prints. `AllocError` comes only where memory is wanting.
#[tactic(auto, unfolding(def_answer::specs::Asm::asm_report))]
pub fn asm_report(alloc: Global, text: &TextTree<'_>) -> Result<String, AllocError>
    requires { IsInRange (shape text.now.tree) }
    ensures { IfOk result (λ report. string_bytes report ≡ the_asm_report text.now.offsets.items (shape text.now.tree)) }
{
    let script = script_bytes(alloc, text.tree())?;
    let places = places(alloc, text.tree(), text.offsets.as_slice())?;
    let mut report = String::new(alloc);
    list_instructions(&mut report, script.as_slice(), places.as_slice())?;
    Ok(report)
}
