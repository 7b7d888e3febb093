//! The limits of a miniscript, and whether it is sane.
#![tactic(auto)]

mod misfit;
mod most;
mod passed;
mod resources;
mod row;
mod takes;
mod valid;

pub use def_sane::{Limits, Rules, Unfit};
pub use misfit::Misfit;
pub use ms_choice::Slot;
pub use ms_mixing::mix;
pub use ms_work::Work;
pub use passed::{SaneTree, ValidTree};
pub use resources::limits;
