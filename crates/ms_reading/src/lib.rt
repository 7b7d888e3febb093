//! Reading a Script, from its last instruction to its first, as the one tree that it may be.
#![tactic(auto)]

pub use only::candidate;
pub use spelled::is_spelling_of;

mod arguments;
mod begin;
mod chain;
mod children;
mod codes;
mod found;
mod frame;
mod hashed;
mod hashes;
mod leaves;
mod multi;
mod only;
mod part;
mod read;
mod settle;
mod signers;
mod spelled;
mod step;
mod want;
