//! Miniscript trees: keys, fragments, builders, and views.
//!
//! Contracts see a tree through `shape`, as a tree of the definitions.
#![tactic(auto)]

pub use build::{and_or, leaf, multi, thresh, two, wrap};
pub use def_tree::{Two, Wrapper};
pub use key::Key;
pub use ms_hash::{HashKind, HashValue};
pub use tree::{Leaf, Node, Tree, View};

mod build;
mod key;
mod rows;
mod size;
mod tree;
