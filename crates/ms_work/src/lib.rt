//! Working room for calls about a tree, and what such calls need of the tree.
#![tactic(auto)]

mod work;

pub use ms_choice::Slot;
pub use work::Work;
