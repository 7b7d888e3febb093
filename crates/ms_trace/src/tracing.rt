//! The trace of a run.
ghost use Rattle.std.specs.Prelude.{◌≤◌, length};
ghost use Rattle.std.specs.String.{string_bytes};
ghost use Rattle.def_machine.specs.Run.{run as the_run};
ghost use Rattle.def_trace.specs.Trace.{trace as the_trace};
ghost use Rattle.def_trace.specs.Written.{written};
ghost use Rattle.ms_interp.specs.Answering.{given_by, Answers};
ghost use Rattle.ms_trace.specs.Tracing.{Adds};

use crate::step_line::{Spot, push_unread, take};
use def_machine::Locks;
use ms_interp::{RunReport, RunStop, SteppedRun, unread};
use ms_oracle::SignatureChecker;
use ms_script::{Stack, next_instr};
use std::alloc::Global;

/// Runs a Script on a stack, as `ms_interp::run` does and with its answer, and adds the trace of the run to the report: a
/// line for each instruction that was reached. Where places are given, each line tells the place that stands at its
/// number. It demands that the stack has at most 2^31 elements.
///
/// A line is added once its step is done. `Memory` comes only where memory is wanting, also for the report; nothing is
/// said then of what the report holds.
pub fn trace<C: SignatureChecker>(
    alloc: Global,
    report: &mut String,
    script: &[u8],
    stack: &Stack,
    locks: &Locks,
    sigs: &C,
    places: &[usize],
) -> Result<RunReport, RunStop>
    requires few { length stack.now ≤ 2147483648 }
    requires sound { C.IsSound sigs.now }
    ensures outcome { Answers result (the_run (given_by (C.checker sigs.now) locks.now) script.now stack.now) }
    ensures lines { Adds result (string_bytes report.old) (string_bytes report.new) (written places.now (the_trace (given_by (C.checker sigs.now) locks.now) script.now stack.now)) }
{
    let mut run = match SteppedRun::start(alloc, script, stack) {
        Ok(run) => run,
        Err(stop) => return Err(stop),
    };
    let mut spot = Spot {
        offset: 0,
        place: 0,
    };
    'instructions: loop {
        match next_instr(script, spot.offset) {
            Ok(None) => return run.end(spot.place),
            Err(fault) => {
                let first = script[spot.offset];
                match push_unread(report, first, spot, places) {
                    Ok(()) => return Err(unread(fault, spot.place)),
                    Err(_) => return Err(RunStop::Memory),
                }
            }
            Ok(Some((instr, next))) => {
                match take(report, &mut run, locks, sigs, instr, spot, places) {
                    Ok(()) => {}
                    Err(stop) => return Err(stop),
                }
                spot.offset = next;
                spot.place += 1;
            }
        }
    }
}
