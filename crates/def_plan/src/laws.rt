//! What the definitions imply.

ghost use Rattle.def_plan.specs.FileLaws.{PlanFileGivesPlan, PlansWantNoMemory};

/// What a plan file that isn't refused gives, and which refusal never comes.
pub fn plan_files()
    ensures plan { PlanFileGivesPlan }
    ensures no_memory { PlansWantNoMemory }
{}
