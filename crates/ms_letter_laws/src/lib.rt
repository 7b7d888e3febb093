//! What the letters of the types of a miniscript mean, proved over the definitions.
#![tactic(auto)]

mod laws;
