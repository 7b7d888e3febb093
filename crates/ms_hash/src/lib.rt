//! The hash functions that Script knows: SHA-256, RIPEMD-160, and their compositions.
//!
//! Each call is its definition for every message; none takes memory or refuses.
#![tactic(auto)]

pub use def_hash::HashKind;
pub use functions::{hash_of, hash160, hash256, sha256};
pub use ripemd::ripemd160;
pub use value::HashValue;

mod functions;
mod ripemd;
mod rounds;
mod state;
mod value;
