//! The lines of what is said of inputs with final fields.
ghost use Rattle.std.specs.Prelude.{◌≡◌, ◌++◌, codes, decimal, OnOk};
ghost use Rattle.def_answer.specs.Lines.{line};
ghost use Rattle.def_psbt_answer.specs.Names.{state_name};
ghost use Rattle.def_psbt_answer.specs.Verified.{flaw_text, flaw_word as the_flaw_word};
ghost use Rattle.def_verify.specs.Verdict.{is_unknown as the_is_unknown, is_unsupported as the_is_unsupported};

use crate::lines::names::push_state;
use crate::lines::pieces::{push_named, push_text};
use def_machine::ScriptFault;
use def_spend::State;
use def_verify::Flaw;
use ms_report::script_fault_name;
use std::alloc::AllocError;

/// Adds the line of an input that isn't Final: its number from 0, and its state. `AllocError` comes only where memory is wanting.
pub fn push_open_line(report: &mut Vec<u8>, number: usize, state: State) -> Result<(), AllocError>
    ensures { OnOk result (report.new.items ≡ report.old.items ++ line (codes "input " ++ decimal number ++ codes " open " ++ state_name state)) }
{
    push_named(report, "input ", number as u64)?;
    push_text(report, " open ")?;
    push_state(report, state)?;
    push_text(report, "\n")
}

/// Adds the line of an input that is valid. `AllocError` comes only where memory is wanting.
pub fn push_valid_line(report: &mut Vec<u8>, number: usize) -> Result<(), AllocError>
    ensures { OnOk result (report.new.items ≡ report.old.items ++ line (codes "input " ++ decimal number ++ codes " valid")) }
{
    push_named(report, "input ", number as u64)?;
    push_text(report, " valid\n")
}

/// Adds the line of an input that isn't known to be valid: its number from 0, and the first flaw. `AllocError` comes only where
/// memory is wanting.
pub fn push_flaw_line(report: &mut Vec<u8>, number: usize, flaw: Flaw) -> Result<(), AllocError>
    ensures { OnOk result (report.new.items ≡ report.old.items ++ line (codes "input " ++ decimal number ++ codes " " ++ the_flaw_word flaw ++ flaw_text flaw)) }
{
    push_named(report, "input ", number as u64)?;
    push_text(report, " ")?;
    push_text(report, flaw_word(flaw))?;
    push_flaw(report, flaw)?;
    push_text(report, "\n")
}

/// Whether a flaw leaves open that the input is valid, as a word.
fn flaw_word(flaw: Flaw) -> &'static str
    ensures { result.now ≡ the_flaw_word flaw }
{
    if is_unknown(flaw) {
        "unknown "
    } else {
        "invalid "
    }
}

/// Whether a flaw leaves open that the input is valid.
fn is_unknown(flaw: Flaw) -> bool
    ensures { result ≡ the_is_unknown flaw }
{
    match flaw {
        Flaw::NoUtxo | Flaw::WrongUtxo | Flaw::OtherOutput => true,
        Flaw::ScriptSig | Flaw::WrongScript | Flaw::ItemCount => false,
        Flaw::Refused(fault, _) => is_unsupported(fault),
    }
}

/// Whether this fault is that of an instruction that isn't run here.
fn is_unsupported(fault: ScriptFault) -> bool
    ensures { result ≡ the_is_unsupported fault }
{
    match fault {
        ScriptFault::Unsupported => true,
        _ => false,
    }
}

/// Adds a flaw: a fault of a run with its place.
fn push_flaw(report: &mut Vec<u8>, flaw: Flaw) -> Result<(), AllocError>
    ensures { OnOk result (report.new.items ≡ report.old.items ++ flaw_text flaw) }
{
    match flaw {
        Flaw::NoUtxo => push_text(report, "NoUtxo"),
        Flaw::WrongUtxo => push_text(report, "WrongUtxo"),
        Flaw::OtherOutput => push_text(report, "OtherOutput"),
        Flaw::ScriptSig => push_text(report, "ScriptSig"),
        Flaw::WrongScript => push_text(report, "WrongScript"),
        Flaw::ItemCount => push_text(report, "ItemCount"),
        Flaw::Refused(fault, place) => push_refused(report, fault, place),
    }
}

/// Adds the fault of a run, with its place.
fn push_refused(report: &mut Vec<u8>, fault: ScriptFault, place: u32) -> Result<(), AllocError>
    ensures { OnOk result (report.new.items ≡ report.old.items ++ flaw_text (Flaw.Refused fault place)) }
{
    push_text(report, script_fault_name(fault))?;
    push_named(report, " at ", place as u64)
}
