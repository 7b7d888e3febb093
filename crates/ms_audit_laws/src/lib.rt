//! By which rows a stack satisfies a miniscript, found by one walk and proved over the definitions.
#![tactic(auto)]

mod laws;
