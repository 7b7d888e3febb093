//! Definitions of outlines: the nodes of a tree with their depths, and which letter lets a node pass that breaks a rule.
#![tactic(auto)]

pub mod examples;
