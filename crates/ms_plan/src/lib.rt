//! Which keys to ask for a signature, before any is made.
#![tactic(auto)]

pub use asking::plan;
pub use def_plan::{PlanFault, PlanMember};
pub use estimate::Estimate;
pub use ms_plan_file::{
    KeyLength, KeyLengths, Keys, MOST_KEYS, PlanFile, are_lengths, length_in, read_plan,
};
pub use planned::Plan;

mod asking;
mod estimate;
mod marks;
mod planned;
