//! The choice of so many children by sorted differences: the lightest one, and the greatest.
#![tactic(auto)]

mod children;
mod choice;
mod kinds;
pub mod laws;
mod slot;
mod sums;
mod tally;
#[cfg(test)]
mod tests;

pub use children::{Child, Costs, Number, Numbers};
pub use choice::Choice;
pub use kinds::KindCounts;
pub use slot::Slot;
pub use tally::Tally;
