//! Reports: what is printed of a tree, its limits, a policy, a run, a satisfaction, an audit and a plan, and of each refusal.
#![tactic(auto)]

pub use answer::Answer;
pub use audits::{audit_report, have_extra};
pub use files::{file_line, plan_file_line};
pub use limits::{Bounds, bounds_line, bounds_of, limits_line};
pub use names::{rule_name, script_fault_name};
pub use plans::plan_report;
pub use policies::policy_report;
pub use runs::{accepted_line, accepted_report, not_accepted_line, refused_report};
pub use satisfactions::satisfaction_report;
pub use texts::{text_line, unfit_line};
pub use trees::{check_report, decode_report, script_report, type_letters};

mod answer;
mod audits;
mod files;
mod limits;
mod lines;
mod names;
mod plans;
mod policies;
mod runs;
mod satisfactions;
mod texts;
mod trees;
