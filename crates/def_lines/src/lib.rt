//! Definitions of many questions to one process: the lines of a source, the question that a line is, and its answer.
#![tactic(auto)]

pub mod examples;
pub mod laws;

/// A part of a line that a refusal names.
#[derive(Clone, Copy, Debug, PartialEq, Eq)]
pub enum Part {
    /// The line as a whole.
    Line,
    /// What tells the answer from others.
    Id,
    /// The words.
    Words,
    /// What standard input holds.
    Source,
}

/// Why a line is no question, in the order in which the reasons are tested.
#[derive(Clone, Copy, Debug, PartialEq, Eq)]
pub enum LineFault {
    /// It has over 1,048,576 bytes.
    TooLong,
    /// It is no UTF-8, or no JSON text (RFC 8259), or one whose lists and objects nest more than 127 deep, or which has a
    /// number over the greatest float of 64 bits.
    NotJson,
    /// It is no object, or the part of it is of another kind. The words have it too where they are missing.
    Shape(Part),
}
