//! Definitions of abstract policies: what a miniscript demands, apart from how its Script demands it.
#![tactic(auto)]

pub mod examples;
pub mod laws;

/// How a policy joins its parts.
#[derive(Clone, Copy, Debug, PartialEq, Eq)]
pub enum Join {
    /// True where each part is.
    All,
    /// True where one part is.
    Any,
}
