//! What the interpreter accepts of a miniscript, proved over the definitions.
#![tactic(auto)]

mod laws;
