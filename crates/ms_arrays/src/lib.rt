//! What is given as arrays of bytes, in place of a file: assets, what a plan is made by, and a run.
#![tactic(auto)]

pub use arrays::Arrays;
pub use planning::PlanArrays;
pub use running::RunArrays;

mod arrays;
mod checking;
mod cutting;
mod entries;
mod planning;
mod running;
