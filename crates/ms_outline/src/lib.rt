//! The outline of a text: a line for each node of its tree, with its type.
#![tactic(auto)]

pub use fits::push_fit;
pub use letters::push_letters;
pub use outline::push_outline;

mod family;
mod fits;
mod heads;
mod letters;
mod node_at;
mod number;
mod outline;
mod types;
