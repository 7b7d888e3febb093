//! What fragments require of their children's correctness types (BIP 379, type system, correctness), by the
//! table of fragments.
ghost use Rattle.std.specs.Prelude.{◌≡◌, ◌&&◌, List, length};
ghost use Rattle.def_tree.specs.Tree.{Key};
ghost use Rattle.def_types.specs.declared.CorrectnessType.{CorrectnessType as the_correctness_type};
ghost use Rattle.def_types.specs.Correctness.{correctness, is_b, is_w, are_same as the_are_same, and_or_row, two_row, thresh_row, multi_row, wrap_row};
ghost use Rattle.ms_types.specs.Checked.{requirements};
ghost use Rattle.ms_types.specs.Scaffolding.Children.{seen};
ghost use Rattle.ms_types.specs.Rows.{leaf_row};

use crate::children::Children;
use def_types::{Base, CorrectnessType, Rule};
use ms_bytes::MAX_PUBKEYS_PER_MULTISIG;
use ms_tree::{Leaf, Two, Wrapper, fragment_rows};

/// Refuses by a rule unless it holds.
macro_rules! require {
    ($rule:ident, $holds:expr) => {
        if !$holds {
            return Err(Rule::$rule);
        }
    };
}

pub(crate) use require;

/// Whether a type has one of the base types and all of the properties.
macro_rules! has_type {
    ($x:ident, [$($base:ident)*] $($property:ident)*) => {
        matches!($x.base, $(Base::$base)|*) $(&& $x.$property)*
    };
}

/// Refuses unless a child has the type that its row requires of it.
macro_rules! require_type {
    ($x:ident, ($rule:ident $($wanted:tt)*)) => {
        require!($rule, has_type!($x, $($wanted)*))
    };
}

/// Refuses unless two children have what their row requires of them.
macro_rules! require_types {
    ($x:ident, $y:ident, (($rule:ident same))) => {
        require!($rule, are_same($x.base, $y.base))
    };
    ($x:ident, $y:ident, ($first:tt $second:tt)) => {
        require_type!($x, $first);
        require_type!($y, $second);
    };
}

/// Whether both are B, both K or both V.
fn are_same(x: Base, y: Base) -> bool
    ensures { result ≡ the_are_same x y }
{
    x == y && x != Base::W
}

macro_rules! lock_arms {
    (
        ($leaf:ident)
        numbers $numbers:tt keys $keys:tt
        locks { $([$lock:ident $name:literal 1 (($rule:ident)) $before:tt $behind:tt])* }
        $($others:tt)*
    ) => {
        match $leaf {
            $(Leaf::$lock(n) => require!($rule, 1 <= *n && *n < 1 << 31),)*
            _ => {}
        }
    };
}

/// Refuses the number of a timelock that is none.
#[tactic(auto, unfolding(def_types::proofs::Rows::correctness_rows))]
pub fn require_leaf(leaf: &Leaf) -> Result<(), Rule>
    ensures { result ≡ requirements (leaf_row correctness leaf.now) }
{
    fragment_rows!(lock_arms!(leaf));
    Ok(())
}

macro_rules! and_or_arm {
    (
        ($x:ident, $y:ident, $z:ident)
        numbers $numbers:tt keys $keys:tt locks $locks:tt hashes $hashes:tt
        and_or { [$variant:ident $name:literal 3 ($of_x:tt $of_y_z:tt) $properties:tt $($ops:tt)*] }
        $($rows:tt)*
    ) => {
        require_type!($x, $of_x);
        require_types!($y, $z, ($of_y_z));
    };
}

/// Refuses the first requirement of `andor` that is false.
#[tactic(auto, unfolding(def_types::proofs::Rows::correctness_rows))]
pub fn require_and_or(
    x: CorrectnessType,
    y: CorrectnessType,
    z: CorrectnessType,
) -> Result<(), Rule>
    ensures { result ≡ requirements (and_or_row x y z) }
{
    fragment_rows!(and_or_arm!(x, y, z));
    Ok(())
}

macro_rules! pair_arms {
    (
        ($kind:ident, $x:ident, $y:ident)
        numbers $numbers:tt keys $keys:tt locks $locks:tt hashes $hashes:tt and_or $and_or:tt
        pairs { $([$variant:ident $name:literal 2 $needs:tt $properties:tt $($ops:tt)*])* }
        $($rows:tt)*
    ) => {
        match $kind {
            $(Two::$variant => {
                require_types!($x, $y, $needs);
            })*
        }
    };
}

/// Refuses the first requirement of a fragment with two children that is false.
#[tactic(auto, unfolding(def_types::proofs::Rows::correctness_rows))]
pub fn require_two(kind: Two, x: CorrectnessType, y: CorrectnessType) -> Result<(), Rule>
    ensures { result ≡ requirements (two_row kind x y) }
{
    fragment_rows!(pair_arms!(kind, x, y));
    Ok(())
}

macro_rules! first_child {
    (
        ($x:ident)
        numbers $numbers:tt keys $keys:tt locks $locks:tt hashes $hashes:tt and_or $and_or:tt pairs $pairs:tt
        lists { [Thresh $name:literal ($range:tt ($first:ident $($wanted:tt)*) $other:tt) $properties:tt $($ops:tt)*] $multi:tt }
        $($rows:tt)*
    ) => {
        has_type!($x, $($wanted)*)
    };
}

macro_rules! other_child {
    (
        ($x:ident)
        numbers $numbers:tt keys $keys:tt locks $locks:tt hashes $hashes:tt and_or $and_or:tt pairs $pairs:tt
        lists { [Thresh $name:literal ($range:tt $first:tt ($other:ident $($wanted:tt)*)) $properties:tt $($ops:tt)*] $multi:tt }
        $($rows:tt)*
    ) => {
        has_type!($x, $($wanted)*)
    };
}

/// Whether a threshold may have a first child of this type.
pub fn may_be_first(x: CorrectnessType) -> bool
    ensures { result ≡ is_b x.base && x.d && x.u }
{
    fragment_rows!(first_child!(x))
}

/// Whether a threshold may have a further child of this type.
pub fn may_follow(x: CorrectnessType) -> bool
    ensures { result ≡ is_w x.base && x.d && x.u }
{
    fragment_rows!(other_child!(x))
}

macro_rules! thresh_arm {
    (
        ($k:ident, $children:ident)
        numbers $numbers:tt keys $keys:tt locks $locks:tt hashes $hashes:tt and_or $and_or:tt pairs $pairs:tt
        lists { [Thresh $name:literal (($range:ident) ($first:ident $($one:tt)*) ($other:ident $($each:tt)*)) $properties:tt $($ops:tt)*] $multi:tt }
        $($rows:tt)*
    ) => {
        require!($range, 1 <= $k && $k <= $children.count);
        require!($first, $children.first_fits);
        require!($other, $children.others_fit);
    };
}

/// Refuses the first requirement of `thresh` that is false.
#[tactic(auto, unfolding(def_types::proofs::Rows::correctness_rows))]
pub fn require_thresh(k: u64, children: Children) -> Result<(), Rule>
    ensures { (types : List the_correctness_type) → children ≡ seen types → result ≡ requirements (thresh_row k types) }
{
    fragment_rows!(thresh_arm!(k, children));
    Ok(())
}

/// The greatest number of keys of a `multi`.
const MOST_KEYS: u64 = MAX_PUBKEYS_PER_MULTISIG as u64;

macro_rules! multi_arm {
    (
        ($k:ident, $count:ident)
        numbers $numbers:tt keys $keys:tt locks $locks:tt hashes $hashes:tt and_or $and_or:tt pairs $pairs:tt
        lists { $thresh:tt [Multi $multi:literal (($range:ident)) $properties:tt $($ops:tt)*] }
        $($rows:tt)*
    ) => {
        require!($range, 1 <= $k && $k <= $count && $count <= MOST_KEYS)
    };
}

/// Refuses the numbers of a `multi` that may not be.
#[tactic(auto, unfolding(def_types::proofs::Rows::correctness_rows))]
pub fn require_multi(k: u64, count: u64) -> Result<(), Rule>
    ensures { (keys : List Key) → count ≡ length keys → result ≡ requirements (multi_row k keys) }
{
    fragment_rows!(multi_arm!(k, count));
    Ok(())
}

macro_rules! wrapper_arms {
    (
        ($wrapper:ident, $x:ident)
        numbers $numbers:tt keys $keys:tt locks $locks:tt hashes $hashes:tt and_or $and_or:tt pairs $pairs:tt lists $lists:tt
        wrappers { $([$variant:ident $letter:literal 1 ($need:tt) $($ops:tt)*])* }
    ) => {
        match $wrapper {
            $(Wrapper::$variant => {
                require_type!($x, $need);
            })*
        }
    };
}

/// Refuses a wrapper's child that hasn't the type that it requires.
#[tactic(auto, unfolding(def_types::proofs::Rows::correctness_rows))]
pub fn require_wrap(wrapper: Wrapper, x: CorrectnessType) -> Result<(), Rule>
    ensures { result ≡ requirements (wrap_row wrapper x) }
{
    fragment_rows!(wrapper_arms!(wrapper, x));
    Ok(())
}
