//! What is promised of plans, proved over the definitions.
#![tactic(auto)]

mod laws;
