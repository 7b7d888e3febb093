//! The parts of a descriptor's text (BIPs 380, 382, 383, 389): its kind, its miniscript in pieces or its key, and its checksum.
#![tactic(auto)]

pub use answer::read_descriptor;
pub use def_descriptor::{DescriptorFault, Form};
pub use expression::{Expression, Named, Seen};
pub use ms_paths::{Origin, Way};
pub use parts::{Body, Descriptor, Found, read_parts};
pub use pieces::Piece;
pub use sample::place_in_text;
pub use tail::read_tail;

mod answer;
mod expression;
mod keys;
mod parts;
mod pieces;
mod sample;
mod spots;
mod tail;
#[cfg(test)]
mod tests;
mod words;
