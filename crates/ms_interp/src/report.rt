//! What a run answers: a report, or why there is none.

use def_machine::ScriptFault;
use ms_oracle::Pairs;

/// What an accepted run did.
#[derive(Debug, Drop)]
pub struct RunReport {
    /// How many opcodes above hex 60 there were, also in branches that weren't taken, with the keys of executed
    /// multisignatures: the number that Bitcoin Core's `MAX_OPS_PER_SCRIPT` bounds, from 0 to 201.
    pub ops: u32,
    /// The greatest number of elements of the main and the alternative stack together, at the start and after each
    /// instruction.
    pub peak: u32,
    /// The pairs of a key and a signature that were found good, in the order in which they were: of a
    /// multisignature the last key's first. At most as many as `ops`.
    pub checks: Pairs,
}

/// Why there is no report.
#[derive(Clone, Copy, Debug, PartialEq, Eq)]
pub enum RunStop {
    /// The run meets this fault, at the instruction with this number, from 0. Before the first instruction the
    /// number is 0, and after the last the number of instructions.
    Refused(ScriptFault, u32),
    /// Memory was wanting, for the stacks or for the list of pairs found good.
    Memory,
}
