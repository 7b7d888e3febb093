//! What is so of all that a descriptor gives, whichever the branch and the index are, proved over the definitions.
#![tactic(auto)]

pub mod laws;
