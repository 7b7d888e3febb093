//! What an audit answers: the steps with the run's report, or why there are none.
ghost use Rattle.std.specs.Prelude.{◌≡◌};
ghost use Rattle.ms_audit.specs.Answering.{stop_of_run};
ghost use Rattle.ms_audit.specs.declared.answer.AuditStop.TheVariants.{Memory};

use crate::trail::Trail;
use ms_interp::{RunReport, RunStop, ScriptFault};
use std::alloc::AllocError;

/// What a run that is accepted did, and by which rows the stack satisfies the tree.
#[derive(Debug, Drop)]
pub struct Audit {
    /// The steps of the satisfaction.
    pub trail: Trail,
    /// What the run did.
    pub report: RunReport,
}

/// Why there is no audit.
#[derive(Clone, Copy, Debug, PartialEq, Eq)]
pub enum AuditStop {
    /// The run of the tree's Script is refused, at the instruction with this number, from 0.
    Refused(ScriptFault, u32),
    /// Memory was wanting.
    Memory,
}

impl From<RunStop> for AuditStop {
    ghost from_gives = { λ run stop. stop ≡ stop_of_run run };

    fn from(stop: RunStop) -> AuditStop {
        match stop {
            RunStop::Refused(fault, place) => AuditStop::Refused(fault, place),
            RunStop::Memory => AuditStop::Memory,
        }
    }
}

impl From<AllocError> for AuditStop {
    ghost from_gives = { λ _ stop. stop ≡ Memory };

    fn from(_error: AllocError) -> AuditStop {
        AuditStop::Memory
    }
}
