//! The way of a satisfaction to its witness.
#![tactic(auto)]

pub use carrying::{Carried, carry};

mod carrying;
