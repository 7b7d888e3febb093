//! The lines that every input has, and that of a signature.
ghost use Rattle.std.specs.Prelude.{◌≡◌, ◌++◌, [], OnOk};
ghost use Rattle.def_psbt_answer.specs.Lines.{input_line, outpoint_line, unchecked_line, kind_line, signature_line};

use crate::lines::names::{kind_name, push_judged, push_state};
use crate::lines::pieces::{push_digits, push_id, push_named, push_number_line, push_text};
use def_curve::Judgement;
use def_spend::{Kind, State};
use ms_input::last_byte;
use std::alloc::AllocError;

/// Adds the line of an input: its number from 0, and its state. `AllocError` comes only where memory is wanting.
pub fn push_input_line(report: &mut Vec<u8>, number: usize, state: State) -> Result<(), AllocError>
    ensures { OnOk result (report.new.items ≡ report.old.items ++ input_line number state) }
{
    push_named(report, "input ", number as u64)?;
    push_text(report, " ")?;
    push_state(report, state)?;
    push_text(report, "\n")
}

/// Adds the line of what the transaction says of an input: the id and the number of its outpoint, and its sequence number.
/// `AllocError` comes only where memory is wanting.
pub fn push_outpoint_line(
    report: &mut Vec<u8>,
    id: &[u8],
    index: u32,
    sequence: u32,
) -> Result<(), AllocError>
    ensures { OnOk result (report.new.items ≡ report.old.items ++ outpoint_line (record { outpoint = record { id = id.now; index = index }; script_sig = []; sequence = sequence })) }
{
    push_text(report, "outpoint ")?;
    push_id(report, id)?;
    push_named(report, " ", index as u64)?;
    push_number_line(report, " sequence ", sequence as u64)
}

/// Adds the line of an input that is Final. `AllocError` comes only where memory is wanting.
pub fn push_unchecked_line(report: &mut Vec<u8>) -> Result<(), AllocError>
    ensures { OnOk result (report.new.items ≡ report.old.items ++ unchecked_line) }
{
    push_text(report, "unchecked\n")
}

/// Adds the line of the kind of the output that an input spends. `AllocError` comes only where memory is wanting.
pub fn push_kind_line(report: &mut Vec<u8>, kind: Kind) -> Result<(), AllocError>
    ensures { OnOk result (report.new.items ≡ report.old.items ++ kind_line kind) }
{
    push_text(report, "kind ")?;
    push_text(report, kind_name(kind))?;
    push_text(report, "\n")
}

/// Adds the line of a key with its signature: the key, the number of the signature's last byte, and how it is judged, where that is
/// told. `AllocError` comes only where memory is wanting.
pub fn push_signature_line(
    report: &mut Vec<u8>,
    key: &[u8],
    sig: &[u8],
    judgement: Option<Judgement>,
) -> Result<(), AllocError>
    ensures { OnOk result (report.new.items ≡ report.old.items ++ signature_line (key.now, sig.now) judgement) }
{
    push_text(report, "signature ")?;
    push_digits(report, key)?;
    push_named(report, " ", last_byte(sig) as u64)?;
    push_judged(report, judgement)?;
    push_text(report, "\n")
}
