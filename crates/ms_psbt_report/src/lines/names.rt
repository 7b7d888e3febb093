//! Names as reports print them.
ghost use Rattle.std.specs.Prelude.{◌≡◌, ◌++◌, Some, OnOk};
ghost use Rattle.def_psbt_answer.specs.Lines.{judged_text};
ghost use Rattle.def_psbt_answer.specs.Names.{fault_name as the_fault_name, judgement_name as the_judgement_name, kind_name as the_kind_name, state_name};

use crate::lines::pieces::push_text;
use def_curve::Judgement;
use def_psbt::PsbtFault;
use def_spend::{Kind, State, Unfit};
use ms_report::rule_name;
use std::alloc::AllocError;

/// The name of a fault of a PSBT. Takes no memory.
pub fn fault_name(fault: PsbtFault) -> &'static str
    ensures { result.now ≡ the_fault_name fault }
{
    match fault {
        PsbtFault::Truncated => "Truncated",
        PsbtFault::Size => "Size",
        PsbtFault::RepeatedKey => "RepeatedKey",
        PsbtFault::KeyForm => "KeyForm",
        PsbtFault::ValueForm => "ValueForm",
        PsbtFault::Version => "Version",
        PsbtFault::Excluded => "Excluded",
        PsbtFault::NoTransaction => "NoTransaction",
        PsbtFault::Trailing => "Trailing",
        PsbtFault::RepeatedOutpoint => "RepeatedOutpoint",
        PsbtFault::LockTime => "LockTime",
    }
}

/// The name of a kind of outputs. Takes no memory.
pub fn kind_name(kind: Kind) -> &'static str
    ensures { result.now ≡ the_kind_name kind }
{
    match kind {
        Kind::P2wsh => "p2wsh",
        Kind::P2wpkh => "p2wpkh",
        Kind::P2shP2wsh => "p2sh-p2wsh",
        Kind::P2shP2wpkh => "p2sh-p2wpkh",
        Kind::Other => "other",
    }
}

/// Adds the name of a state, and of why a miniscript isn't sane, without the place.
pub fn push_state(report: &mut Vec<u8>, state: State) -> Result<(), AllocError>
    ensures { OnOk result (report.new.items ≡ report.old.items ++ state_name state) }
{
    match state {
        State::Final => push_text(report, "Final"),
        State::NoUtxo => push_text(report, "NoUtxo"),
        State::WrongUtxo => push_text(report, "WrongUtxo"),
        State::OtherOutput => push_text(report, "OtherOutput"),
        State::NoScript => push_text(report, "NoScript"),
        State::WrongScript => push_text(report, "WrongScript"),
        State::NoReading => push_text(report, "NoReading"),
        State::Unfit(unfit) => push_unfit(report, unfit),
        State::WrongSighash => push_text(report, "WrongSighash"),
        State::TooMany => push_text(report, "TooMany"),
        State::Unsatisfied => push_text(report, "Unsatisfied"),
        State::Ready => push_text(report, "Ready"),
    }
}

/// Adds the name of the state of a miniscript that isn't sane.
fn push_unfit(report: &mut Vec<u8>, unfit: Unfit) -> Result<(), AllocError>
    ensures { OnOk result (report.new.items ≡ report.old.items ++ state_name (State.Unfit unfit)) }
{
    let (name, rule) = match unfit {
        Unfit::Rule(at) => ("Unfit Rule ", rule_name(at.rule)),
        Unfit::TopNotB => ("Unfit TopNotB", ""),
        Unfit::Size(_) => ("Unfit Size", ""),
        Unfit::Ops(_) => ("Unfit Ops", ""),
        Unfit::Items(_) => ("Unfit Items", ""),
        Unfit::Malleable(at) => ("Unfit Malleable ", rule_name(at.rule)),
        Unfit::NoSignature => ("Unfit NoSignature", ""),
        Unfit::MixedLocks(_) => ("Unfit MixedLocks", ""),
        Unfit::RepeatedKey(_) => ("Unfit RepeatedKey", ""),
    };
    push_text(report, name)?;
    push_text(report, rule)
}

/// Adds how a signature is judged, where that is told.
pub fn push_judged(report: &mut Vec<u8>, judgement: Option<Judgement>) -> Result<(), AllocError>
    ensures { OnOk result (report.new.items ≡ report.old.items ++ judged_text judgement) }
{
    match judgement {
        None => Ok(()),
        Some(judgement) => push_judgement(report, judgement),
    }
}

/// Adds the name of a judgement behind a space.
fn push_judgement(report: &mut Vec<u8>, judgement: Judgement) -> Result<(), AllocError>
    ensures { OnOk result (report.new.items ≡ report.old.items ++ judged_text (Some judgement)) }
{
    push_text(report, " ")?;
    push_text(report, judgement_name(judgement))
}

/// The name of a judgement. Takes no memory.
fn judgement_name(judgement: Judgement) -> &'static str
    ensures { result.now ≡ the_judgement_name judgement }
{
    match judgement {
        Judgement::Bad => "bad",
        Judgement::High => "high",
        Judgement::Good => "good",
    }
}
