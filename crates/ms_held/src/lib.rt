//! Assets: what a wallet holds for a spend, as signatures, preimages and the values of the locks.
#![tactic(auto)]

pub use assets::{AddStop, Assets, MOST_PREIMAGES, MOST_SIGNATURES};
pub use preimage::Preimage;
pub use signatures::{Signatures, is_same_key};

mod assets;
mod preimage;
mod signatures;
