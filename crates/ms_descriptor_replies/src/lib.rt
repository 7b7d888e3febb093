//! What `msat-descriptor` replies to what is asked.
#![tactic(auto)]

pub use asked::Derivation;
pub use checking::check_reply;
pub use judging::{Place, place_at, place_from};
pub use listing::derive_reply;
pub use measures::Measures;
pub use reasons::push_refused_line;
pub use reply::{Reply, refused};

mod asked;
mod checking;
mod judging;
mod listing;
mod measures;
mod reasons;
mod reply;
