//! The audit of a witness: whether it is accepted, and by which rows.
ghost use Rattle.std.specs.Prelude.{◌≤◌, true, length, IfOk};
ghost use Rattle.def_audit.specs.Derives.{Derives};
ghost use Rattle.def_choice.specs.NonMalleable.{IsAccepted};
ghost use Rattle.def_emit.specs.Emit.{script_of};
ghost use Rattle.def_machine.specs.Run.{run as the_run};
ghost use Rattle.def_machine.specs.Stacks.{Pairs};
ghost use Rattle.def_sane.specs.declared.Rules.TheVariants.{Consensus};
ghost use Rattle.def_sane.specs.Unfit.{IsValidUnder};
ghost use Rattle.def_tree.specs.InRange.{IsInRange};
ghost use Rattle.ms_audit.specs.Answering.{Audits};
ghost use Rattle.ms_audit_laws.specs.Laws.{IsCanonicalWhereSat};
ghost use Rattle.ms_interp.specs.Answering.{given_by};
ghost use Rattle.ms_tree.specs.Shape.{shape};

use crate::answer::{Audit, AuditStop};
use crate::spend::Spend;
use crate::trail::Trail;
use ms_emit::script_bytes;
use ms_interp::run;
use ms_oracle::{Locks, SignatureChecker};
use ms_script::Stack;
use ms_tree::Tree;
use std::alloc::{AllocError, Global};

/// Runs a tree's Script on a stack, bottom first, and says by which rows of the satisfaction table the stack satisfies
/// the tree (BIP 379, satisfaction). `locks` tells the timelocks of the spending input, and `sigs` which signatures are
/// good.
///
/// It demands that the tree is valid by the limits of consensus, as each is that is valid by those of policy; that the
/// check in `sigs` is sound for its table; and that the stack has at most 2^31 items.
///
/// `Refused` comes exactly where the run is refused, as by `run`, and else there is an audit with the run's report: what
/// is accepted satisfies the tree, and by these steps alone. Only `Memory` may come in place of any answer.
///
/// Of a stack that is a canonical satisfaction by what some assets hold, whose signatures are good and which have these
/// locks, all steps are by canonical rows.
pub fn audit<C: SignatureChecker>(
    alloc: Global,
    tree: &Tree<'_>,
    stack: &Stack,
    locks: &Locks,
    sigs: &C,
) -> Result<Audit, AuditStop>
    requires in_range { IsInRange (shape tree.now) }
    requires valid { IsValidUnder Consensus (shape tree.now) }
    requires few { length stack.now ≤ 2147483648 }
    requires sound { C.IsSound sigs.now }
    ensures outcome { Audits result (the_run (given_by (C.checker sigs.now) locks.now) (script_of (shape tree.now)) stack.now) }
    ensures derives { IfOk result (λ audit. Derives (shape tree.now) (given_by (C.checker sigs.now) locks.now) true audit.trail stack.now) }
    ensures canonical { IfOk result (λ audit. IsCanonicalWhereSat (shape tree.now) (given_by (C.checker sigs.now) locks.now) stack.now audit.trail) }
{
    let script = script_bytes(alloc, tree)?;
    let report = run(alloc, script.as_slice(), stack, locks, sigs)?;
    let spend = Spend { stack, locks, sigs };
    let trail = spend.accepted_trail(alloc, tree)?;
    Ok(Audit { trail, report })
}

impl<C: SignatureChecker> Spend<'_, C> {
    /// The steps of a stack that is accepted.
    fn accepted_trail(&self, alloc: Global, tree: &Tree<'_>) -> Result<Trail, AllocError>
        requires in_range { IsInRange (shape tree.now) }
        requires valid { IsValidUnder Consensus (shape tree.now) }
        requires sound { C.IsSound self.now.sigs.now }
        requires accepted { (checks : Pairs) × IsAccepted (shape tree.now) (given_by (C.checker self.now.sigs.now) self.now.locks.now) self.now.stack.now checks }
        ensures { IfOk result (λ trail. Derives (shape tree.now) (given_by (C.checker self.now.sigs.now) self.now.locks.now) true trail self.now.stack.now) }
    {
        match self.trail(alloc, tree)? {
            Some(trail) => Ok(trail),
            None => unreachable!(),
        }
    }
}
