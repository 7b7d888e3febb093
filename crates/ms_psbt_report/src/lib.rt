//! What `msat-psbt` replies to what is asked and the bytes of its source, and its reports: what `inspect`, `hashes` and `verify` print of
//! the transaction and of each input, line by line, and how they end.
#![tactic(auto)]

pub use replies::{Reply, request_reply};

mod amounts;
mod final_id;
mod hashing;
mod inputs;
mod inspecting;
mod lines;
mod open;
mod replies;
mod shared;
mod spent;
mod states;
mod table;
mod transactions;
mod trees;
mod verifying;
mod words;
