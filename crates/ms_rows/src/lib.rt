//! The rows of the satisfaction table (BIP 379) of the fragments with children, said once: of which parts a satisfaction
//! and a dissatisfaction of each is made, whatever is known of its children, and one walk over these ways.
#![tactic(auto)]

mod reading;
mod rows;
mod ways;

pub use reading::{Reading, read};
pub use rows::{and_or, two, wrap};
pub use ways::{Argument, Part, Row, Way, Ways};
