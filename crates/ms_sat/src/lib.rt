//! The satisfactions of a miniscript: the cheapest one, and the strict one, which nobody can change.
#![tactic(auto)]

mod satisfy;
mod unchangeable;
mod weigh;

pub use ms_choice::Costs;
pub use ms_chosen::{Choice, satisfaction};
pub use satisfy::cheapest;
pub use unchangeable::strict;
pub use weigh::costs;
