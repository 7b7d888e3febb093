//! The tokens of a descriptor's text, and the paths of keys in it: origins, and steps behind extended keys (BIPs 380, 389).
#![tactic(auto)]

pub use origins::{Origin, read_origin};
pub use steps::{Way, read_ways};
pub use tokens::{behind_mark, is_mark, is_word, token_at};

mod branches;
mod origins;
mod steps;
mod tokens;
mod words;
