//! The audit of a stack for a text, by what lies in arrays, without a run file.
ghost use Rattle.std.specs.Prelude.{◌≡◌, ◌⊎◌, ◌↔◌, ◌<◌, ◌≤◌, All, length, map, IsUtf8, IfOk};
ghost use Rattle.def_answer.specs.Reading.{read as the_read};
ghost use Rattle.def_tree.specs.InRange.{IsInRange};
ghost use Rattle.def_tree.specs.Size.{nodes};
ghost use Rattle.def_sane.specs.Unfit.{IsValid};
ghost use Rattle.def_audit.specs.declared.Step.{Step as TheStep};
ghost use Rattle.def_files.specs.RunFile.{MOST_ELEMENTS};
ghost use Rattle.def_machine.specs.Run.{accepted};
ghost use Rattle.ms_tree.specs.Shape.{shape};
ghost use Rattle.ms_replies.specs.Runs.{file_seen};
ghost use Rattle.ms_arrays.specs.ArrayRun.{run_of_arrays};
ghost use Rattle.ms_calls.specs.Audited.{placed, audited as the_audited, stack_audited, audited_file, audited_given, not_accepted as the_not_accepted};
ghost use Rattle.ms_calls.specs.Audited.{audit_given, audit_by, audit_code, audited_outcome, audited_steps, canonical_after};
ghost use Rattle.ms_calls.specs.Stops.{Finds, FindsOf};
ghost use Rattle.ms_calls.specs.TextReply.{HoldsOfReply, told, reason_after, value_after, buffer_after, needed_after};

use crate::copying::write_steps;
use crate::outcome::{PlacedStep, RunOutcome};
use crate::reason::Reason;
use crate::running::run_in;
use crate::stopping::Stop;
use crate::texts::{read, valid_of};
use bumpalo::Bump;
use def_audit::Step;
use ms_arrays::RunArrays;
use ms_assets::RunFile;
use ms_audit::{Audit, AuditStop};
use ms_emit::script_bytes;
use ms_oracle::{Locks, PairIndex, SigCheck};
use ms_report::have_extra;
use ms_sane::Rules;
use ms_text::TextTree;
use std::alloc::{AllocError, Global};
use std::marker::Model;

/// The code where the stack isn't accepted, as the program's own.
const NOT_ACCEPTED: u32 = 9;

/// What an audit tells: what the run comes to, whether each row is canonical, and the steps of a stack that is accepted.
#[derive(Drop)]
pub struct Audited {
    /// The counts of the run, or its fault.
    pub outcome: RunOutcome,
    /// Whether the stack is accepted and each row canonical.
    pub canonical: bool,
    /// The steps, in order.
    pub steps: Vec<PlacedStep>,
}

impl Model for Audited {
    ghost use Rattle.ms_calls.specs.Audited.{Audited as Seen};

    ghost Value = { Seen };

    ghost view = { λ a. record { outcome = a.outcome; canonical = a.canonical; steps = a.steps.items } };
}

/// Whether a stack is accepted for a text that is valid by the limits of policy, and by which rows of the satisfaction table it
/// satisfies the text, by what lies in arrays, as `run` takes it. The script has to be that of the text.
///
/// `outcome` is what the run comes to, with a fault of its own where the script is another one, and `canonical` tells whether the
/// stack is accepted by canonical rows alone. The steps of a stack that is accepted are written over the beginning of `steps`, as far
/// as there is room, and `count` is how many there are: 0 where the stack isn't accepted. The answer is 0 where it is accepted; 2
/// where the text is refused and 3 where the arrays are, for this reason; 7 where memory was wanting; 9 where the stack isn't
/// accepted; and 11 where the text isn't UTF-8. What an answer doesn't speak of is as it was.
pub fn audit(
    alloc: Global,
    text: &[u8],
    locks: Locks,
    arrays: &RunArrays<'_>,
    steps: &mut [PlacedStep],
    count: &mut usize,
    canonical: &mut bool,
    outcome: &mut RunOutcome,
    reason: &mut Reason,
) -> u32
    ensures code { HoldsOfReply text.now result (audit_by locks arrays.now) (λ given. result ≡ audit_code given) }
    ensures steps { HoldsOfReply text.now result (audit_by locks arrays.now) (λ given. steps.new ≡ buffer_after steps.old (audited_steps given)) }
    ensures count { HoldsOfReply text.now result (audit_by locks arrays.now) (λ given. count.new ≡ needed_after count.old (audited_steps given)) }
    ensures canonical { HoldsOfReply text.now result (audit_by locks arrays.now) (λ given. canonical.new ≡ canonical_after canonical.old given) }
    ensures outcome { HoldsOfReply text.now result (audit_by locks arrays.now) (λ given. outcome.new ≡ value_after outcome.old (audited_outcome given)) }
    ensures reason { HoldsOfReply text.now result (audit_by locks arrays.now) (λ given. reason.new ≡ reason_after reason.old given) }
    ensures unreadable { result ≡ 11 ↔ (¬ IsUtf8 text.now) }
    ensures kept { (result ≡ 11) ⊎ (result ≡ 7) → steps.new ≡ steps.old }
    ensures kept_count { (result ≡ 11) ⊎ (result ≡ 7) → count.new ≡ count.old }
    ensures kept_canonical { (result ≡ 11) ⊎ (result ≡ 7) → canonical.new ≡ canonical.old }
    ensures kept_outcome { (result ≡ 11) ⊎ (result ≡ 7) → outcome.new ≡ outcome.old }
    ensures kept_reason { (result ≡ 11) ⊎ (result ≡ 7) → reason.new ≡ reason.old }
{
    match audited_in(alloc, text, locks, arrays) {
        Ok(found) => {
            *count = found.steps.len();
            let _steps = write_steps(&found.steps, steps);
            *canonical = found.canonical;
            *outcome = found.outcome;
            found.outcome.code(NOT_ACCEPTED)
        }
        Err(stop) => stop.tell(reason),
    }
}

/// What an audit of a text tells.
fn audited_in(
    alloc: Global,
    text: &[u8],
    locks: Locks,
    arrays: &RunArrays<'_>,
) -> Result<Audited, Stop>
    ensures { FindsOf text.now (audit_given (run_of_arrays locks arrays.now)) result }
{
    let arena = Bump::new(alloc);
    match read(alloc, &arena, text) {
        Ok(text) => audited_of_text(alloc, &text, locks, arrays),
        Err(stop) => Err(stop),
    }
}

/// What an audit of a text that was read tells.
fn audited_of_text(
    alloc: Global,
    text: &TextTree<'_>,
    locks: Locks,
    arrays: &RunArrays<'_>,
) -> Result<Audited, Stop>
    requires { IsInRange (shape text.now.tree) }
    ensures { Finds (audit_by locks arrays.now (the_read (shape text.now.tree) text.now.offsets.items)) result }
{
    let _valid = valid_of(alloc, text, Rules::Policy)?;
    audited_of_tree(alloc, text, locks, arrays)
}

/// What an audit of a text whose tree is valid tells.
fn audited_of_tree(
    alloc: Global,
    text: &TextTree<'_>,
    locks: Locks,
    arrays: &RunArrays<'_>,
) -> Result<Audited, Stop>
    requires range { IsInRange (shape text.now.tree) }
    requires valid { IsValid (shape text.now.tree) }
    ensures { Finds (audited_given text.now.offsets.items (run_of_arrays locks arrays.now) (shape text.now.tree)) result }
{
    match run_in(alloc, locks, arrays) {
        Ok(file) => audited_of_file(alloc, text, &file),
        Err(stop) => Err(stop),
    }
}

/// What an audit of a run tells: that its script isn't the text's, or what its stack comes to.
fn audited_of_file(alloc: Global, text: &TextTree<'_>, file: &RunFile) -> Result<Audited, Stop>
    requires range { IsInRange (shape text.now.tree) }
    requires valid { IsValid (shape text.now.tree) }
    requires few { length file.now.stack ≤ MOST_ELEMENTS }
    ensures { Finds (told (audited_file text.now.offsets.items (shape text.now.tree) (file_seen file.now))) result }
{
    let Ok(script) = script_bytes(alloc, text.tree()) else {
        return Err(Stop::Memory);
    };
    if file.script.as_slice() != script.as_slice() {
        return Ok(not_accepted(alloc, RunOutcome::of_another_script()));
    }
    audited_of_stack(alloc, text, file)
}

/// What an audit of a run whose script is the text's tells.
fn audited_of_stack(alloc: Global, text: &TextTree<'_>, file: &RunFile) -> Result<Audited, Stop>
    requires range { IsInRange (shape text.now.tree) }
    requires valid { IsValid (shape text.now.tree) }
    requires few { length file.now.stack ≤ MOST_ELEMENTS }
    ensures { Finds (told (stack_audited text.now.offsets.items (shape text.now.tree) (file_seen file.now))) result }
{
    let pairs = file.pairs.as_slice();
    let Ok(index) = PairIndex::new(alloc, pairs) else {
        return Err(Stop::Memory);
    };
    let sigs = SigCheck::new(pairs, |key: &[u8], sig: &[u8]| index.holds(key, sig));
    match ms_audit::audit(alloc, text.tree(), &file.stack, &file.locks, &sigs) {
        Ok(audit) => accepted_by(alloc, text, &audit),
        Err(AuditStop::Refused(fault, place)) => {
            Ok(not_accepted(alloc, RunOutcome::refused(fault, place)))
        }
        Err(AuditStop::Memory) => Err(Stop::Memory),
    }
}

/// What an audit of a stack that is accepted tells.
fn accepted_by(alloc: Global, text: &TextTree<'_>, audit: &Audit) -> Result<Audited, Stop>
    requires { All (λ (step : TheStep). step.node < nodes (shape text.now.tree)) audit.now.trail }
    ensures { Finds (told (the_audited text.now.offsets.items audit.now.trail (accepted audit.now.report.ops audit.now.report.peak audit.now.report.checks))) result }
{
    let steps = audit.trail.as_slice();
    match placed_steps(alloc, text, steps) {
        Ok(placed) => Ok(Audited {
            outcome: RunOutcome::accepted(audit.report.ops, audit.report.peak),
            canonical: !have_extra(steps),
            steps: placed,
        }),
        Err(AllocError) => Err(Stop::Memory),
    }
}

/// The steps at the offsets of their nodes. Refuses for want of memory alone.
fn placed_steps(
    alloc: Global,
    text: &TextTree<'_>,
    steps: &[Step],
) -> Result<Vec<PlacedStep>, AllocError>
    requires { All (λ (step : TheStep). step.node < nodes (shape text.now.tree)) steps.now }
    ensures { IfOk result (λ found. found.items ≡ map (placed text.now.offsets.items) steps.now) }
{
    let mut found = Vec::new(alloc);
    for step in steps {
        found.push(PlacedStep::new(text, step))?;
    }
    Ok(found)
}

/// What is told of a stack that isn't accepted.
fn not_accepted(alloc: Global, outcome: RunOutcome) -> Audited
    ensures { result ≡ the_not_accepted outcome }
{
    Audited {
        outcome,
        canonical: false,
        steps: Vec::new(alloc),
    }
}
