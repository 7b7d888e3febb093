//! What a program in another language asks of `msat-psbt`, as a call over plain bytes and numbers.
#![tactic(auto)]

pub use answering::psbt_answer;

mod answering;
