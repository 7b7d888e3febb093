//! The run of a script on a stack, by what lies in arrays, without a run file.
ghost use Rattle.std.specs.Prelude.{◌≡◌, ◌≤◌, length, IfOk};
ghost use Rattle.def_files.specs.RunFile.{MOST_ELEMENTS};
ghost use Rattle.def_machine.specs.Run.{accepted};
ghost use Rattle.ms_replies.specs.Runs.{file_seen, outcome_of};
ghost use Rattle.ms_arrays.specs.ArrayRun.{run_of_arrays};
ghost use Rattle.ms_calls.specs.Ran.{ran as the_ran, ran_given, ran_by, HoldsOfRun, run_code, ran_outcome, ran_checks};
ghost use Rattle.ms_calls.specs.Stops.{Finds, FindsRun};
ghost use Rattle.ms_calls.specs.TextReply.{told, reason_after, value_after, bytes_after, bytes_needed_after, lengths_after, items_count_after};

use crate::items::Items;
use crate::outcome::RunOutcome;
use crate::reason::Reason;
use crate::satisfying::file_refusal;
use crate::stopping::Stop;
use ms_arrays::RunArrays;
use ms_assets::RunFile;
use ms_interp::{RunReport, RunStop};
use ms_oracle::{Locks, PairIndex, SigCheck};
use std::alloc::{AllocError, Global};
use std::marker::Model;

/// The code where the run is refused, as the program's own.
const SCRIPT_REFUSED: u32 = 8;

/// What a run comes to, and the good pairs that it passed.
#[derive(Drop)]
pub struct Ran {
    /// The counts, or the fault.
    pub outcome: RunOutcome,
    /// Each key, and its signature after it.
    pub checks: Items,
}

impl Model for Ran {
    ghost use Rattle.ms_calls.specs.Ran.{Ran as Seen};

    ghost Value = { Seen };

    ghost view = { λ r. record { outcome = r.outcome; checks = r.checks } };
}

/// The run of a script on a stack, by the values of the locks and what lies in arrays: the script; the items of the stack, bottom
/// first and one after the other, with their lengths; and keys of 33 bytes, one after the other, with at each place a signature of
/// the key there, one after the other, with their lengths, which are those that are good.
///
/// `outcome` is what the run comes to. The good pairs that an accepted run passed lie one after the other, each key before its
/// signature: as much of them as there is room for is written over the beginning of `bytes`, and `needed` is how many bytes all of
/// them have. The first of their lengths are written over the beginning of `lengths`, as far as there is room, and `count` is how
/// many these are, two for each pair; both are 0 where the run is refused. The answer is 0 where the run is accepted; 3 where the
/// arrays are refused, for the reason for which a run file is; 7 where memory was wanting; and 8 where the run is refused. What an
/// answer doesn't speak of is as it was.
pub fn run(
    alloc: Global,
    locks: Locks,
    arrays: &RunArrays<'_>,
    bytes: &mut [u8],
    needed: &mut usize,
    lengths: &mut [usize],
    count: &mut usize,
    outcome: &mut RunOutcome,
    reason: &mut Reason,
) -> u32
    ensures code { HoldsOfRun result (ran_by locks arrays.now) (λ given. result ≡ run_code given) }
    ensures bytes { HoldsOfRun result (ran_by locks arrays.now) (λ given. bytes.new ≡ bytes_after bytes.old (ran_checks given)) }
    ensures needed { HoldsOfRun result (ran_by locks arrays.now) (λ given. needed.new ≡ bytes_needed_after needed.old (ran_checks given)) }
    ensures lengths { HoldsOfRun result (ran_by locks arrays.now) (λ given. lengths.new ≡ lengths_after lengths.old (ran_checks given)) }
    ensures count { HoldsOfRun result (ran_by locks arrays.now) (λ given. count.new ≡ items_count_after count.old (ran_checks given)) }
    ensures outcome { HoldsOfRun result (ran_by locks arrays.now) (λ given. outcome.new ≡ value_after outcome.old (ran_outcome given)) }
    ensures reason { HoldsOfRun result (ran_by locks arrays.now) (λ given. reason.new ≡ reason_after reason.old given) }
    ensures kept { result ≡ 7 → bytes.new ≡ bytes.old }
    ensures kept_needed { result ≡ 7 → needed.new ≡ needed.old }
    ensures kept_lengths { result ≡ 7 → lengths.new ≡ lengths.old }
    ensures kept_count { result ≡ 7 → count.new ≡ count.old }
    ensures kept_outcome { result ≡ 7 → outcome.new ≡ outcome.old }
    ensures kept_reason { result ≡ 7 → reason.new ≡ reason.old }
{
    match ran_in(alloc, locks, arrays) {
        Ok(found) => {
            found.checks.write(bytes, needed, lengths, count);
            *outcome = found.outcome;
            found.outcome.code(SCRIPT_REFUSED)
        }
        Err(stop) => stop.tell(reason),
    }
}

/// The run that arrays give.
fn ran_in(alloc: Global, locks: Locks, arrays: &RunArrays<'_>) -> Result<Ran, Stop>
    ensures { Finds (ran_given (run_of_arrays locks arrays.now)) result }
{
    match run_in(alloc, locks, arrays) {
        Ok(file) => ran_of_file(alloc, &file),
        Err(stop) => Err(stop),
    }
}

/// The run that arrays give, before it is made.
pub fn run_in(alloc: Global, locks: Locks, arrays: &RunArrays<'_>) -> Result<RunFile, Stop>
    ensures run { FindsRun (run_of_arrays locks arrays.now) result }
    ensures few { IfOk result (λ file. length file.stack ≤ MOST_ELEMENTS) }
{
    match arrays.run_file(alloc, locks) {
        Ok(file) => Ok(file),
        Err(fault) => Err(file_refusal(fault)),
    }
}

/// What a run comes to.
fn ran_of_file(alloc: Global, file: &RunFile) -> Result<Ran, Stop>
    requires { length file.now.stack ≤ MOST_ELEMENTS }
    ensures { Finds (told (the_ran (outcome_of (file_seen file.now)))) result }
{
    let pairs = file.pairs.as_slice();
    let Ok(index) = PairIndex::new(alloc, pairs) else {
        return Err(Stop::Memory);
    };
    let sigs = SigCheck::new(pairs, |key: &[u8], sig: &[u8]| index.holds(key, sig));
    match ms_interp::run(
        alloc,
        file.script.as_slice(),
        &file.stack,
        &file.locks,
        &sigs,
    ) {
        Ok(report) => ran_of_report(alloc, &report),
        Err(RunStop::Refused(fault, place)) => Ok(Ran {
            outcome: RunOutcome::refused(fault, place),
            checks: Items::none(alloc),
        }),
        Err(RunStop::Memory) => Err(Stop::Memory),
    }
}

/// What a run that is accepted comes to.
fn ran_of_report(alloc: Global, report: &RunReport) -> Result<Ran, Stop>
    ensures { Finds (told (the_ran (accepted report.now.ops report.now.peak report.now.checks))) result }
{
    match Items::of_pairs(alloc, report.checks.as_slice()) {
        Ok(checks) => Ok(Ran {
            outcome: RunOutcome::accepted(report.ops, report.peak),
            checks,
        }),
        Err(AllocError) => Err(Stop::Memory),
    }
}
