//! What a plan is made by: keys with the estimated lengths of their signatures, and plan files.
#![tactic(auto)]

pub use def_plan::{PlanFault, PlanMember};
pub use lengths::{KeyLength, KeyLengths, Keys, MOST_KEYS, are_lengths, length_in};
pub use plan_file::{PlanFile, read_plan};

mod lengths;
mod plan_file;
