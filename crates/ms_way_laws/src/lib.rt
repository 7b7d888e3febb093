//! What follows from the definitions of ways.
#![tactic(auto)]

mod laws;
