//! Mixed timelocks and repeated keys: what a tree may have, whatever its types, that keeps it from being sane.
#![tactic(auto)]

mod keys;
mod kinds;
mod mixing;

pub use keys::repeated_key;
pub use mixing::mix;
