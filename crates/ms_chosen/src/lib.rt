//! The satisfaction of a tree that a rule chooses, and the least weights.
#![tactic(auto)]

mod cost;
mod row;
mod satisfy;
mod table;
mod way;
mod weigh;

pub use def_choice::Choice;
pub use satisfy::satisfaction;
pub use weigh::least_costs;
