//! The check of a trail.
ghost use Rattle.std.specs.Prelude.{◌↔◌, ◌≤◌, IsTrue, true, length, IfOk};
ghost use Rattle.def_audit.specs.Derives.{Derives};
ghost use Rattle.def_sane.specs.declared.Rules.TheVariants.{Consensus};
ghost use Rattle.def_sane.specs.Unfit.{IsValidUnder};
ghost use Rattle.def_tree.specs.InRange.{IsInRange};
ghost use Rattle.ms_audit.specs.Answering.{IsAcceptedUnlessLimited};
ghost use Rattle.ms_interp.specs.Answering.{given_by};
ghost use Rattle.ms_tree.specs.Shape.{shape};

use crate::spend::Spend;
use def_audit::Step;
use ms_oracle::{Locks, SignatureChecker};
use ms_script::Stack;
use ms_tree::Tree;
use std::alloc::{AllocError, Global};

/// Whether these are the steps by which a stack, bottom first, satisfies a tree, as `audit` tells them. `locks` tells
/// the timelocks of the spending input, and `sigs` which signatures are good. The demands are those of `audit`;
/// `AllocError` comes only where memory is wanting.
///
/// Where it answers true, the interpreter accepts the stack, or refuses it at one of its own limits: an element of over
/// 520 bytes, over 201 opcodes, or over 1,000 elements.
pub fn check_trail<C: SignatureChecker>(
    alloc: Global,
    tree: &Tree<'_>,
    trail: &[Step],
    stack: &Stack,
    locks: &Locks,
    sigs: &C,
) -> Result<bool, AllocError>
    requires in_range { IsInRange (shape tree.now) }
    requires valid { IsValidUnder Consensus (shape tree.now) }
    requires few { length stack.now ≤ 2147483648 }
    requires sound { C.IsSound sigs.now }
    ensures derives { IfOk result (λ yes. IsTrue yes ↔ Derives (shape tree.now) (given_by (C.checker sigs.now) locks.now) true trail.now stack.now) }
    ensures accepted { IfOk result (λ yes. IsTrue yes → IsAcceptedUnlessLimited (shape tree.now) (given_by (C.checker sigs.now) locks.now) stack.now) }
{
    let spend = Spend { stack, locks, sigs };
    Ok(match spend.trail(alloc, tree)? {
        Some(found) => found.as_slice() == trail,
        None => false,
    })
}
