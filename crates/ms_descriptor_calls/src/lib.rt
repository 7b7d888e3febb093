//! What a program in another language asks of `msat-descriptor`, as a call over plain bytes and numbers.
#![tactic(auto)]

pub use answering::descriptor_answer;

mod answering;
