//! What is answered to a plan file: which keys to ask for a signature, and what the satisfaction weighs at most.
ghost use Rattle.std.specs.Prelude.{◌≢◌, ◌≤◌, length, IfOk};
ghost use Rattle.def_sane.specs.Unfit.{IsSane};
ghost use Rattle.def_plan.specs.FileLaws.{IsPlanFile};
ghost use Rattle.def_plan.specs.Plan.{plan_of};
ghost use Rattle.def_answer.specs.Plan.{plan_file_line as the_plan_file_line};
ghost use Rattle.def_answer.specs.Reply.{reply, plan_reply, planned_reply};
ghost use Rattle.def_answer.specs.Lines.{MOST_FILE};
ghost use Rattle.ms_tree.specs.Shape.{shape};
ghost use Rattle.ms_replies.specs.Answering.{RepliesWith};

use def_answer::Status;
use ms_plan::{Estimate, PlanFault, PlanFile, length_in, plan, read_plan};
use ms_report::{Answer, plan_file_line, plan_report};
use ms_sane::SaneTree;
use ms_tree::Key;
use std::alloc::{AllocError, Global};

/// The answer to a plan file of these bytes for a tree that is sane by policy, as `plan` gives it: the file's refusal, or
/// the keys to ask for a signature, or that all that are listed aren't enough. It demands that the file isn't too long.
/// `AllocError` comes only where memory is wanting.
pub fn plan_answer(alloc: Global, sane: &SaneTree<'_>, bytes: &[u8]) -> Result<Answer, AllocError>
    requires sane { IsSane (shape sane.now.valid.tree) }
    requires short { length bytes.now ≤ MOST_FILE }
    ensures { RepliesWith result (plan_reply bytes.now (shape sane.now.valid.tree)) }
{
    match read_plan(alloc, bytes) {
        Ok(file) => planned_answer(alloc, sane, &file),
        Err(fault) => plan_file_answer(alloc, fault),
    }
}

/// The answer to a plan file that was read: the keys to ask, or that all that are listed aren't enough.
fn planned_answer(alloc: Global, sane: &SaneTree<'_>, file: &PlanFile) -> Result<Answer, AllocError>
    requires sane { IsSane (shape sane.now.valid.tree) }
    requires usable { IsPlanFile file.now }
    ensures { RepliesWith result (planned_reply (plan_of (shape sane.now.valid.tree) file.now.assets file.now.table)) }
{
    let table = file.table.as_slice();
    let estimate = Estimate::new(table, |key: &Key| length_in(table, key));
    match plan(alloc, &sane.valid.tree, &file.assets, &estimate)? {
        Some(plan) => Ok(Answer {
            status: Status::Done,
            report: plan_report(alloc, plan.keys.as_slice(), plan.weight)?,
        }),
        None => Ok(Answer {
            status: Status::NoSatisfaction,
            report: String::from_str(alloc, "no satisfaction\n")?,
        }),
    }
}

/// The refusal of a plan file, unless memory was wanting.
fn plan_file_answer(alloc: Global, fault: PlanFault) -> Result<Answer, AllocError>
    ensures answer { RepliesWith result (reply Status.FileRefused (the_plan_file_line fault)) }
    ensures known { IfOk result (λ answer. fault ≢ PlanFault.Memory) }
{
    Ok(Answer {
        status: Status::FileRefused,
        report: plan_file_line(alloc, fault)?,
    })
}
