//! Transactions that lie in bytes: that of a PSBT, and those whose outputs it spends. Nothing is copied.
#![tactic(auto)]

pub use input::InputRef;
pub use outputs::{OutputRef, Outputs, spent_output};
pub use transaction::{TransactionRef, previous_transaction, unsigned_transaction};

mod input;
mod numbers;
mod outputs;
mod sides;
mod transaction;
