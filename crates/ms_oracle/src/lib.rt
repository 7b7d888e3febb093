//! Signatures: what an interpreter asks of them, tables of pairs of a key and a signature, a sorted index over one, and
//! the stored check that answers for one.
#![tactic(auto)]

pub use check::SigCheck;
pub use checker::SignatureChecker;
pub use def_machine::Locks;
pub use index::{PairIndex, pair_at, places_of};
pub use pairs::{Pairs, SigPair, member};

mod check;
mod checker;
mod index;
mod pairs;
