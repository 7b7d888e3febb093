//! The way of a satisfaction to its witness.

ghost use Rattle.std.specs.Prelude.{◌≡◌, ◌≤◌, IfOk};
ghost use Rattle.def_machine.specs.Program.{program_of as the_program_of};
ghost use Rattle.def_choice.specs.NonMalleable.{given_with};
ghost use Rattle.def_emit.specs.Emit.{script_of};
ghost use Rattle.def_machine.specs.Run.{run as the_run, accepted};
ghost use Rattle.def_machine.specs.Stacks.{Checker};
ghost use Rattle.def_promises.specs.Accepted.{IsAcceptedWithin};
ghost use Rattle.def_limits.specs.Limits.{AreLimits};
ghost use Rattle.def_sane.specs.declared.Rules.TheVariants.{Consensus};
ghost use Rattle.def_sane.specs.Unfit.{IsValidUnder};
ghost use Rattle.def_limits.specs.declared.Limits.{Limits};
ghost use Rattle.def_satisfaction.specs.Satisfaction.{Holds, Sat};
ghost use Rattle.def_script.specs.Witness.{witness_text};
ghost use Rattle.def_tree.specs.InRange.{IsInRange};
ghost use Rattle.ms_interp.specs.Answering.{given_by};
ghost use Rattle.ms_replay.specs.Answering.{IsReportOf, IsAccepting};
ghost use Rattle.ms_witness.specs.Replaying.{replay as the_replay, ran};
ghost use Rattle.ms_tree.specs.Shape.{shape};

use ms_bytes::{Blob, Stack};
use ms_emit::script_bytes;
use ms_held::Assets;
use ms_interp::RunReport;
use ms_oracle::{Locks, SignatureChecker};
use ms_program::program_of;
use ms_tree::Tree;
use ms_witness::{ReplayStop, replay, witness_bytes};
use std::alloc::{AllocError, Global};

/// A canonical satisfaction as it is spent: all that a wallet needs of it, and what its run did.
#[derive(Debug, Drop)]
pub struct Carried {
    /// The tree's Script.
    pub script: Blob,
    /// The program of the Script's P2WSH output.
    pub program: [u8; 34],
    /// The witness: the satisfaction, and the Script as its last item.
    pub witness: Blob,
    /// What the run of the witness did, which is accepted.
    pub report: RunReport,
}

/// Carries a satisfaction of a tree, bottom first, to its witness: makes the tree's Script, its program and the
/// witness, and replays it.
///
/// It demands that the tree is valid (BIP 379) by the limits of consensus, as each is that is valid by those of policy;
/// that the stack is a canonical satisfaction of it with these assets; and that `sigs` takes the assets'
/// signatures with their keys, and is sound. The interpreter accepts each such stack, so `AllocError` comes
/// only where memory is wanting.
pub fn carry<C: SignatureChecker>(
    alloc: Global,
    tree: &Tree<'_>,
    stack: &Stack,
    assets: &Assets,
    sigs: &C,
) -> Result<Carried, AllocError>
    requires in_range { IsInRange (shape tree.now) }
    requires valid { IsValidUnder Consensus (shape tree.now) }
    requires satisfies { Sat (shape tree.now) assets.now stack.now }
    requires holds { Holds (C.checker sigs.now) assets.now }
    requires sound { C.IsSound sigs.now }
    ensures script { IfOk result (λ carried. carried.script ≡ script_of (shape tree.now)) }
    ensures program { IfOk result (λ carried. carried.program ≡ the_program_of (script_of (shape tree.now))) }
    ensures witness { IfOk result (λ carried. carried.witness ≡ witness_text stack.now (script_of (shape tree.now))) }
    // The report is that of the run, which is accepted.
    ensures report { IfOk result (λ carried. IsReportOf (the_run (given_with assets.now (C.checker sigs.now)) (script_of (shape tree.now)) stack.now) carried.report) }
    ensures few_ops { (limits : Limits) → AreLimits (shape tree.now) limits → IfOk result (λ carried. carried.report.ops ≤ limits.ops) }
    // So it is whatever other signatures are good, and within the tree's limits.
    ensures within { (limits : Limits) (checker : Checker) → AreLimits (shape tree.now) limits → Holds checker assets.now
        → IsAcceptedWithin (shape tree.now) limits (given_with assets.now checker) stack.now }
{
    let locks = assets.locks();
    let script = script_bytes(alloc, tree)?;
    let program = program_of(script.as_slice());
    let witness = witness_bytes(alloc, stack, script.as_slice())?;
    let report = replay_accepted(alloc, &program, witness.as_slice(), &locks, sigs)?;
    Ok(Carried {
        script,
        program,
        witness,
        report,
    })
}

/// Replays a witness whose run is accepted.
fn replay_accepted<C: SignatureChecker>(
    alloc: Global,
    program: &[u8; 34],
    bytes: &[u8],
    locks: &Locks,
    sigs: &C,
) -> Result<RunReport, AllocError>
    requires accepted { IsAccepting (the_replay (given_by (C.checker sigs.now) locks.now) program.now bytes.now) }
    requires sound { C.IsSound sigs.now }
    ensures { IfOk result (λ report. the_replay (given_by (C.checker sigs.now) locks.now) program.now bytes.now ≡ ran (accepted report.ops report.peak report.checks)) }
{
    match replay(alloc, program, bytes, locks, sigs) {
        Ok(report) => Ok(report),
        Err(ReplayStop::Memory) => Err(AllocError),
        Err(ReplayStop::Witness(_) | ReplayStop::WrongProgram { .. } | ReplayStop::Refused(_, _)) =>
            unreachable!(),
    }
}
