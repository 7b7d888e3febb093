//! Audits of witnesses: by which rows of the satisfaction table a stack satisfies a miniscript.
#![tactic(auto)]

pub use answer::{Audit, AuditStop};
pub use auditing::audit;
pub use checking::check_trail;
pub use def_audit::Step;
pub use trail::Trail;

mod answer;
mod auditing;
mod checking;
mod course;
mod parts;
mod row;
mod spend;
mod trail;
mod walking;
