//! What a step changed, as words.
ghost use Rattle.std.specs.Prelude.{◌≡◌, ◌++◌, length, drop, flat_map, OnOk};
ghost use Rattle.std.specs.String.{string_bytes};
ghost use Rattle.def_trace.specs.Changes.{pops, alt_changes};
ghost use Rattle.def_trace.specs.Written.{change_text};
ghost use Rattle.ms_interp.specs.Stepping.{main_of, alt_of, checks_of, live_of};
ghost use Rattle.ms_trace.specs.Scaffolding.Brief.{brief_of, brief_branch, check_word, named_digits};

use crate::names::opcode_puts;
use crate::pieces::{push_digits, push_number};
use ms_interp::SteppedRun;
use ms_oracle::SigPair;
use ms_script::{Blob, Op};
use std::alloc::AllocError;

/// What a line needs of the machine before its step: whether all branches are taken, how many elements the main stack
/// has, and how many signatures were found good.
#[derive(Clone, Copy)]
pub struct Before {
    /// Whether all open branches are taken.
    pub live: bool,
    /// How many elements the main stack has.
    pub main: usize,
    /// How many signatures were found good.
    pub checks: usize,
}

impl Before {
    /// What it is of this run.
    pub fn of(run: &SteppedRun) -> Before
        ensures { result ≡ record { live = live_of run.now; main = length (main_of run.now); checks = length (checks_of run.now) } }
    {
        Before {
            live: run.is_live(),
            main: run.main_len(),
            checks: run.checks().len(),
        }
    }
}

/// Adds the changes of an opcode that was carried out, from what the run was before it and from what it is behind it.
#[tactic(auto, using(crate::proofs::Briefly::brief_text))]
pub fn push_changes(
    report: &mut String,
    op: Op,
    before: Before,
    run: &SteppedRun,
) -> Result<(), AllocError>
    ensures { OnOk result (string_bytes report.new ≡ string_bytes report.old ++ flat_map change_text (brief_of op before run.now)) }
{
    let puts = opcode_puts(op, before.main, run.main_len());
    let kept = run.main_len().saturating_sub(puts);
    push_pops(report, before.main.saturating_sub(kept))?;
    push_each(report, " push ", run.upper_main(puts))?;
    push_alt(report, op, run)?;
    report.push_str(branch_words(op, run.is_live()))?;
    push_checks(report, new_checks(run, before.checks))
}

/// Adds how many elements left the main stack, where some did.
fn push_pops(report: &mut String, count: usize) -> Result<(), AllocError>
    ensures { OnOk result (string_bytes report.new ≡ string_bytes report.old ++ flat_map change_text (pops count)) }
{
    if count == 0 {
        return Ok(());
    }
    report.push_str(" pop ")?;
    push_number(report, count)
}

/// Adds elements, each behind a word.
fn push_each(report: &mut String, word: &str, elements: &[Blob]) -> Result<(), AllocError>
    ensures { OnOk result (string_bytes report.new ≡ string_bytes report.old ++ flat_map (named_digits word.now) elements.now) }
{
    for element in elements {
        push_named(report, word, element)?;
    }
    Ok(())
}

/// Adds an element behind a word.
fn push_named(report: &mut String, word: &str, element: &Blob) -> Result<(), AllocError>
    ensures { OnOk result (string_bytes report.new ≡ string_bytes report.old ++ named_digits word.now element.now) }
{
    report.push_str(word)?;
    push_digits(report, element.as_slice())
}

/// Adds what changed on the alternative stack.
#[tactic(auto, using(crate::proofs::Briefly::alt_text))]
fn push_alt(report: &mut String, op: Op, run: &SteppedRun) -> Result<(), AllocError>
    ensures { OnOk result (string_bytes report.new ≡ string_bytes report.old ++ flat_map change_text (alt_changes op (alt_of run.now))) }
{
    match op {
        Op::ToAltStack => push_each(report, " altpush ", run.upper_alt(1)),
        Op::FromAltStack => report.push_str(" altpop"),
        Op::If
        | Op::NotIf
        | Op::Else
        | Op::EndIf
        | Op::Verify
        | Op::IfDup
        | Op::Dup
        | Op::Swap
        | Op::Size
        | Op::Equal
        | Op::EqualVerify
        | Op::ZeroNotEqual
        | Op::Add
        | Op::BoolAnd
        | Op::BoolOr
        | Op::Ripemd160
        | Op::Sha256
        | Op::Hash160
        | Op::Hash256
        | Op::CheckSig
        | Op::CheckSigVerify
        | Op::CheckMultiSig
        | Op::CheckMultiSigVerify
        | Op::CheckLockTimeVerify
        | Op::CheckSequenceVerify => Ok(()),
    }
}

/// What became of the innermost branch; `live` says whether all open branches are taken behind the opcode.
fn branch_words(op: Op, live: bool) -> &'static str
    ensures { result.now ≡ flat_map change_text (brief_branch op live) }
{
    match op {
        Op::If | Op::NotIf => { if live { " open yes" } else { " open no" } }
        Op::Else => " turn",
        Op::EndIf => " close",
        Op::Verify
        | Op::ToAltStack
        | Op::FromAltStack
        | Op::IfDup
        | Op::Dup
        | Op::Swap
        | Op::Size
        | Op::Equal
        | Op::EqualVerify
        | Op::ZeroNotEqual
        | Op::Add
        | Op::BoolAnd
        | Op::BoolOr
        | Op::Ripemd160
        | Op::Sha256
        | Op::Hash160
        | Op::Hash256
        | Op::CheckSig
        | Op::CheckSigVerify
        | Op::CheckMultiSig
        | Op::CheckMultiSigVerify
        | Op::CheckLockTimeVerify
        | Op::CheckSequenceVerify => "",
    }
}

/// The pairs that were found good behind the first so many.
fn new_checks(run: &SteppedRun, before: usize) -> &[SigPair]
    ensures { result.now ≡ drop before (checks_of run.now) }
{
    let checks = run.checks();
    &checks[before.min(checks.len())..]
}

/// Adds the pairs that were found good.
fn push_checks(report: &mut String, checks: &[SigPair]) -> Result<(), AllocError>
    ensures { OnOk result (string_bytes report.new ≡ string_bytes report.old ++ flat_map check_word checks.now) }
{
    for pair in checks {
        push_check(report, pair)?;
    }
    Ok(())
}

/// Adds a pair that was found good.
fn push_check(report: &mut String, pair: &SigPair) -> Result<(), AllocError>
    ensures { OnOk result (string_bytes report.new ≡ string_bytes report.old ++ check_word pair.now) }
{
    report.push_str(" check ")?;
    push_digits(report, pair.key())?;
    report.push_str(" ")?;
    push_digits(report, pair.sig())
}
