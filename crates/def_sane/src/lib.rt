//! Definitions of valid and sane miniscripts, and of the reasons why one is refused.
#![tactic(auto)]

pub mod examples;
pub mod laws;

pub use def_limits::Limits;
pub use def_types::{CorrectnessType, MalleabilityProperties, RuleAt};

/// Whose limits hold: those of policy, within which nodes relay a transaction, or those of consensus alone, within
/// which a block may hold it.
#[derive(Clone, Copy, Debug, PartialEq, Eq)]
pub enum Rules {
    /// Those of policy (Bitcoin Core: `policy/policy.h`).
    Policy,
    /// Those of consensus alone (Bitcoin Core: `script/script.h`).
    Consensus,
}

/// Why a miniscript is refused, in the order in which the reasons are tested.
#[derive(Clone, Copy, Debug, PartialEq, Eq)]
pub enum Unfit {
    /// A requirement of the correctness types is false, at this node.
    Rule(RuleAt),
    /// The type of the top isn't `B`.
    TopNotB,
    /// The Script has this many bytes, which are too many.
    Size(u64),
    /// A run on a canonical satisfaction counts this many opcodes, which are too many.
    Ops(u64),
    /// A canonical satisfaction has this many items, which are too many.
    Items(u64),
    /// A requirement of the malleability properties is false, at this node.
    Malleable(RuleAt),
    /// The top hasn't the property s.
    NoSignature,
    /// The node with this number is the first that mixes timelocks.
    MixedLocks(u32),
    /// The node with this number is the first with a key that was seen before.
    RepeatedKey(u32),
}

/// What is known of a valid miniscript: its type and its limits.
#[derive(Clone, Copy, Debug, PartialEq, Eq)]
pub struct Valid {
    /// Its correctness type.
    pub ty: CorrectnessType,
    /// Its limits.
    pub limits: Limits,
}

/// What is known of a sane miniscript: both its types and its limits.
#[derive(Clone, Copy, Debug, PartialEq, Eq)]
pub struct Sane {
    /// Its correctness type.
    pub ty: CorrectnessType,
    /// Its malleability properties.
    pub malleability_of: MalleabilityProperties,
    /// Its limits.
    pub limits: Limits,
}
