//! Kinds of timelocks (BIP 379, timelock mixing).
ghost use Rattle.std.specs.Prelude.{◌≡◌, ◌++◌, [], ◌∷◌, List};
ghost use Rattle.def_sane.specs.Locks.{Kinds as the_kinds, no_kinds, union as the_union, conflict, kinds};
ghost use Rattle.ms_tree.specs.Shape.{leaf_shape};

use ms_tree::Leaf;
use std::marker::Model;

/// The bit of an operand of `older` that makes it a time (BIP 112).
const TIME_BIT: u32 = 22;

/// The least operand of `after` that is a time (BIP 65).
const LEAST_TIME: u64 = 500_000_000;

/// A set of kinds of timelocks.
#[derive(Clone, Copy)]
pub struct Kinds {
    relative_time: bool,
    relative_height: bool,
    absolute_time: bool,
    absolute_height: bool,
}

impl Model for Kinds {
    ghost Value = { the_kinds };

    ghost view = { λ k. record {
      relative_time = k.relative_time;
      relative_height = k.relative_height;
      absolute_time = k.absolute_time;
      absolute_height = k.absolute_height;
    } };

    ghost inverse = { λ k. record {
      relative_time = k.relative_time;
      relative_height = k.relative_height;
      absolute_time = k.absolute_time;
      absolute_height = k.absolute_height;
    } };
}

impl Kinds {
    /// No kind of timelock.
    pub fn none() -> Kinds
        ensures { result ≡ no_kinds }
    {
        Kinds {
            relative_time: false,
            relative_height: false,
            absolute_time: false,
            absolute_height: false,
        }
    }

    /// The kind of a leaf, if it is a lock.
    pub fn of_leaf(leaf: &Leaf) -> Kinds
        ensures { result ≡ kinds (leaf_shape leaf.now) }
    {
        match *leaf {
            Leaf::Older(n) => {
                let is_time = (n >> TIME_BIT) % 2 == 1;
                Kinds {
                    relative_time: is_time,
                    relative_height: !is_time,
                    ..Kinds::none()
                }
            }
            Leaf::After(n) => {
                let is_time = n >= LEAST_TIME;
                Kinds {
                    absolute_time: is_time,
                    absolute_height: !is_time,
                    ..Kinds::none()
                }
            }
            Leaf::Zero | Leaf::One | Leaf::PkK(_) | Leaf::PkH(_) | Leaf::Hash(_) => Kinds::none(),
        }
    }

    /// The kinds of both.
    pub fn union(self, other: Kinds) -> Kinds
        ensures { result ≡ the_union self other }
    {
        Kinds {
            relative_time: self.relative_time || other.relative_time,
            relative_height: self.relative_height || other.relative_height,
            absolute_time: self.absolute_time || other.absolute_time,
            absolute_height: self.absolute_height || other.absolute_height,
        }
    }

    /// Whether one holds a time and the other a height, both relative or both absolute.
    pub fn conflicts(self, other: Kinds) -> bool
        ensures { result ≡ conflict self other }
    {
        self.relative_time && other.relative_height
            || self.relative_height && other.relative_time
            || self.absolute_time && other.absolute_height
            || self.absolute_height && other.absolute_time
    }
}

/// The kinds of a threshold's children, and whether some two of them conflict.
#[derive(Clone, Copy)]
pub struct Together {
    /// The kinds of all of them.
    pub kinds: Kinds,
    /// Whether some two of them conflict.
    pub is_mixed: bool,
}

impl Together {
    ghost use Rattle.ms_mixing.specs.Scaffolding.Mixing.{together};

    /// No child.
    pub fn none() -> Together
        ensures { result ≡ together [] }
    {
        Together {
            kinds: Kinds::none(),
            is_mixed: false,
        }
    }

    /// One more child behind the others.
    pub fn and(self, child: Kinds) -> Together
        ensures { (each : List the_kinds) → self ≡ together each → result ≡ together (each ++ child ∷ []) }
    {
        Together {
            kinds: self.kinds.union(child),
            is_mixed: self.is_mixed || self.kinds.conflicts(child),
        }
    }
}
