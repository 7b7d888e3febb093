//! A reader of Scripts from their end, and what it finds, proved over the definitions.
#![tactic(auto)]

mod laws;
