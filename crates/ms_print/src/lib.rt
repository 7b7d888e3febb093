//! The printer of miniscript text.
#![tactic(auto)]

pub use print::{copy_out, name_of_hash, print_call, print_lock, print_number, print_text};

mod print;
