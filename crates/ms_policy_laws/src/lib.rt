//! What the policy of a miniscript says of its satisfactions, proved over the definitions.
#![tactic(auto)]

mod laws;
