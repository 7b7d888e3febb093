//! The plan of a miniscript.

use ms_plan_file::Keys;
use std::marker::Model;

/// Which keys to ask for a signature, and what the satisfaction weighs with signatures of the estimated lengths: the sum
/// over its items of 1 plus the item's length, without the script. Contracts see the definition's plan.
#[derive(Debug, Drop)]
pub struct Plan {
    /// In the order of the nodes and, in a `multi`, of its positions.
    pub keys: Keys,
    /// In bytes, by the estimated lengths.
    pub weight: u64,
}

impl Model for Plan {
    ghost use Rattle.def_plan.specs.Plan.{Plan as Planned};

    ghost Value = { Planned };

    ghost view = { λ p. record { keys = p.keys; weight = p.weight } };
}
