//! Definitions of the translation from miniscript trees to Script, and of the program of a Script's output.
#![tactic(auto)]

pub mod examples;
