//! The satisfaction table of BIP 379, over what its rows are made of.
#![tactic(auto)]
