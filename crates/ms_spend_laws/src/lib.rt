//! What nobody can change of the witness of a Ready input, and which signatures an Unsatisfied one wants, proved over the definitions.
#![tactic(auto)]

pub mod laws;
