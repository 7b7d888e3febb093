//! The lines of the reports of PSBTs, each added to the end of a report. Each of them takes memory for the report alone, but
//! those of a miniscript.

pub use amounts::{push_claimed_amount_line, push_proved_amount_line, push_unknown_amount_line};
pub use fees::push_fee_line;
pub use hashes::{push_check_line, push_sign_line};
pub use inputs::{
    push_input_line, push_kind_line, push_outpoint_line, push_signature_line, push_unchecked_line,
};
pub use refusals::{push_combine_refusal_line, push_not_final_line, push_refusal_line};
pub use transactions::{Summary, push_final_id_line, push_output_line, push_psbt_line};
pub use trees::{push_ask_line, push_no_plan_line, push_policy_line, push_tree_line};
pub use verdicts::{push_flaw_line, push_open_line, push_valid_line};
pub use weights::{push_most_weight_line, push_weight_line};

mod amounts;
mod fees;
mod hashes;
mod inputs;
mod names;
mod pieces;
mod refusals;
mod transactions;
mod trees;
mod verdicts;
mod weights;
