//! The abstract policy of a miniscript: what it demands, without Script; when that is met, and by how few keys.
#![tactic(auto)]

mod joins;
mod keys;
mod of_tree;
mod policy;
mod print;
mod truth;

pub use keys::least_keys;
pub use of_tree::policy_of;
pub use policy::Policy;
pub use print::print_policy;
pub use truth::holds;
