//! What nobody can change of the satisfactions of a miniscript, proved over the definitions.
#![tactic(auto)]

mod laws;
