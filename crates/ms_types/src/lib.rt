//! Miniscript's two type systems: the correctness type of a tree and its malleability properties, or the
//! first requirement that is false; and the types of all nodes of a tree.
#![tactic(auto)]

pub use correctness::correctness_of;
pub use def_types::{Base, CorrectnessType, MalleabilityProperties, Rule, RuleAt};
pub use malleability::malleability_of;
pub use nodes::{correctness_of_nodes, malleability_of_nodes};
pub use over::{Letter, correctness_of_letter, count_wrong, passes_with};

mod children;
mod correctness;
mod malleability;
mod nodes;
mod over;
mod properties;
mod requirements;
mod system;
