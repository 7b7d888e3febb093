//! An instruction of a run: its step, and its line.
ghost use Rattle.std.specs.Prelude.{◌≡◌, ◌+◌, ◌<◌, ◌≤◌, ◌++◌, codes, drop, OnOk};
ghost use Rattle.std.specs.String.{string_bytes};
ghost use Rattle.def_machine.specs.Machine.{is_branching as the_is_branching};
ghost use Rattle.def_trace.specs.Written.{line_text, line_end};
ghost use Rattle.ms_interp.specs.Answering.{given_by};
ghost use Rattle.ms_interp.specs.Stepping.{open_of};
ghost use Rattle.ms_script.specs.Reads.{item_of};
ghost use Rattle.ms_trace.specs.Scaffolding.Brief.{line_behind, head_text, unread_text};
ghost use Rattle.ms_trace.specs.Scaffolding.Taking.{TakesFrom};

use crate::changes::{Before, push_changes};
use crate::pieces::{push_byte, push_instruction, push_line_end, push_number};
use def_machine::Locks;
use ms_interp::{RunStop, SteppedRun};
use ms_oracle::SignatureChecker;
use ms_script::{InstrRef, Op};
use std::alloc::AllocError;

/// Where an instruction stands: at which byte of the script, and its number from 0.
#[derive(Clone, Copy)]
pub struct Spot {
    /// How many bytes of the script stand before it.
    pub offset: usize,
    /// How many instructions stand before it.
    pub place: u32,
}

/// Takes an instruction, and adds its line with the place of its node, where there is one.
pub fn take<C: SignatureChecker>(
    report: &mut String,
    run: &mut SteppedRun,
    locks: &Locks,
    sigs: &C,
    instr: InstrRef<'_>,
    spot: Spot,
    places: &[usize],
) -> Result<(), RunStop>
    requires sound { C.IsSound sigs.now }
    requires room { open_of run.old < usize.MAX }
    ensures taken { TakesFrom result run.old run.new (string_bytes report.old) (string_bytes report.new) places.now (given_by (C.checker sigs.now) locks.now) (item_of instr.entry) spot }
    ensures open { open_of run.new ≤ open_of run.old + 1 }
{
    let before = Before::of(run);
    match run.step(sigs, locks, instr, spot.place) {
        Ok(()) => match push_step(report, instr, spot, places, before, run) {
            Ok(()) => Ok(()),
            Err(_) => Err(RunStop::Memory),
        },
        Err(RunStop::Refused(fault, place)) => {
            match push_stop(report, instr, spot, places) {
                Ok(()) => Err(RunStop::Refused(fault, place)),
                Err(_) => Err(RunStop::Memory),
            }
        }
        Err(RunStop::Memory) => Err(RunStop::Memory),
    }
}

/// Adds the line of an instruction that met no fault.
fn push_step(
    report: &mut String,
    instr: InstrRef<'_>,
    spot: Spot,
    places: &[usize],
    before: Before,
    run: &SteppedRun,
) -> Result<(), AllocError>
    ensures { OnOk result (string_bytes report.new ≡ string_bytes report.old ++ (line_text (line_behind spot.offset (item_of instr.entry) before run.now) ++ line_end (drop spot.place places.now))) }
{
    push_told(report, instr, spot.offset, before, run)?;
    push_line_end(report, places, spot.place as usize)
}

/// Adds what is told of an instruction that met no fault: that it was passed over, or its changes.
#[tactic(auto, unfolding(def_trace::specs::Written::line_text))]
fn push_told(
    report: &mut String,
    instr: InstrRef<'_>,
    offset: usize,
    before: Before,
    run: &SteppedRun,
) -> Result<(), AllocError>
    ensures { OnOk result (string_bytes report.new ≡ string_bytes report.old ++ line_text (line_behind offset (item_of instr.entry) before run.now)) }
{
    match instr {
        InstrRef::Push { .. } | InstrRef::Small(_) => {
            let kind = if before.live { "step " } else { "skip " };
            push_head(report, kind, offset, instr)
        }
        InstrRef::Code(op) => {
            if !is_branching(op) && !before.live {
                return push_head(report, "skip ", offset, instr);
            }
            push_head(report, "step ", offset, instr)?;
            push_changes(report, op, before, run)
        }
    }
}

/// Adds the line of an instruction that met a fault.
#[tactic(auto, unfolding(def_trace::specs::Written::line_text))]
fn push_stop(
    report: &mut String,
    instr: InstrRef<'_>,
    spot: Spot,
    places: &[usize],
) -> Result<(), AllocError>
    ensures { OnOk result (string_bytes report.new ≡ string_bytes report.old ++ (head_text (codes "stop ") spot.offset (item_of instr.entry) ++ line_end (drop spot.place places.now))) }
{
    push_head(report, "stop ", spot.offset, instr)?;
    push_line_end(report, places, spot.place as usize)
}

/// Adds the kind of a line, the offset of its instruction and what that is called.
fn push_head(
    report: &mut String,
    kind: &str,
    offset: usize,
    instr: InstrRef<'_>,
) -> Result<(), AllocError>
    ensures { OnOk result (string_bytes report.new ≡ string_bytes report.old ++ head_text kind.now offset (item_of instr.entry)) }
{
    report.push_str(kind)?;
    push_number(report, offset)?;
    push_instruction(report, instr)
}

/// Adds the line of an instruction that can't be read, which begins with this byte.
pub fn push_unread(
    report: &mut String,
    first: u8,
    spot: Spot,
    places: &[usize],
) -> Result<(), AllocError>
    ensures { OnOk result (string_bytes report.new ≡ string_bytes report.old ++ (unread_text spot.offset first ++ line_end (drop spot.place places.now))) }
{
    report.push_str("stop ")?;
    push_number(report, spot.offset)?;
    report.push_str(" ")?;
    report.push_str("byte ")?;
    push_byte(report, first)?;
    push_line_end(report, places, spot.place as usize)
}

/// Whether the opcode opens, turns or closes a branch, and so is carried out in every branch.
fn is_branching(op: Op) -> bool
    ensures { result ≡ the_is_branching op }
{
    matches!(op, Op::If | Op::NotIf | Op::Else | Op::EndIf)
}
