//! Replies: what is answered to a file's bytes and to a Script, and the instructions of a text's Script.
#![tactic(auto)]

pub use asm::asm_report;
pub use audits::audit_answer;
pub use choice_tree::ChoiceTree;
pub use decoding::decode_answer;
pub use outline::tree_answer;
pub use plans::plan_answer;
pub use runs::run_answer;
pub use satisfying::{assets_answer, satisfaction};
pub use traces::{text_trace_answer, trace_answer};

mod asm;
mod audits;
mod choice_tree;
mod decoding;
mod files;
mod outline;
mod plans;
mod runs;
mod satisfying;
mod traces;
