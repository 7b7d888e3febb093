//! The lines of the reports of descriptors, each added to the end of a report.
#![tactic(auto)]

pub use outputs::push_output_lines;
pub use paths::{own_print, push_key_lines};
pub use pieces::{push_digits_line, push_number, push_number_line, push_text, push_text_line};
pub use refusals::{push_fault_line, push_no_branch_line, push_not_ranged_line};
pub use shapes::{branch_count, is_ranged, push_descriptor_line, push_shape_lines};

mod outputs;
mod paths;
mod pieces;
mod refusals;
mod shapes;
