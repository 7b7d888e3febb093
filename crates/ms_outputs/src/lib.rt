//! What a descriptor gives at a branch and an index (BIPs 380, 389, 32, 67, 141, 16): its keys, the text and the Script of its miniscript, its output and its address.
#![tactic(auto)]

pub use given::{Given, GivenFault, Spelled, finish, give, spell};
pub use keys::number_at;
pub use starts::{Left, Reached, Start, starts_of};

mod given;
mod keys;
mod order;
mod outputs;
mod starts;
#[cfg(test)]
mod tests;
mod texts;
