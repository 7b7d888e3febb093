//! The types of fragments whose requirements are met (BIP 379, type system, correctness).
ghost use Rattle.std.specs.Prelude.{◌≡◌, ◌&&◌, ◌||◌, ℕ, List};
ghost use Rattle.def_types.specs.declared.CorrectnessType.{CorrectnessType as the_correctness_type};
ghost use Rattle.def_types.specs.Correctness.{correctness, and_or_row, two_row, thresh_row, multi_row, wrap_row};
ghost use Rattle.def_tree.specs.Tree.{Key};
ghost use Rattle.ms_types.specs.Scaffolding.Children.{seen};
ghost use Rattle.ms_types.specs.Scaffolding.Properties.{bare as the_bare};
ghost use Rattle.ms_types.specs.Rows.{leaf_row};

use crate::children::Children;
use def_types::{Base, CorrectnessType};
use ms_tree::{Leaf, Two, Wrapper};

/// The type of this base type with these properties and no others.
macro_rules! ty {
    ($base:ident $($property:ident)*) => {
        CorrectnessType {
            $($property: true,)*
            ..bare(Base::$base)
        }
    };
}

/// The type of this base type with no property.
fn bare(base: Base) -> CorrectnessType
    ensures { result ≡ the_bare base }
{
    CorrectnessType {
        base,
        z: false,
        o: false,
        n: false,
        d: false,
        u: false,
    }
}

/// The type of a fragment without children.
#[tactic(auto, unfolding(def_types::proofs::Rows::correctness_rows))]
pub fn leaf_type(leaf: &Leaf) -> CorrectnessType
    ensures { result ≡ (leaf_row correctness leaf.now).gives }
{
    match leaf {
        Leaf::Zero => ty!(B z u d),
        Leaf::One => ty!(B z u),
        Leaf::PkK(_) => ty!(K o n d u),
        Leaf::PkH(_) => ty!(K n d u),
        Leaf::Older(_) | Leaf::After(_) => ty!(B z),
        Leaf::Hash(_) => ty!(B o n d u),
    }
}

/// The type of an `andor` whose requirements are met.
#[tactic(auto, unfolding(def_types::proofs::Rows::correctness_rows))]
pub fn and_or_type(x: CorrectnessType, y: CorrectnessType, z: CorrectnessType) -> CorrectnessType
    ensures { result ≡ (and_or_row x y z).gives }
{
    CorrectnessType {
        z: x.z && y.z && z.z,
        o: x.z && y.o && z.o || x.o && y.z && z.z,
        d: z.d,
        u: y.u && z.u,
        ..bare(y.base)
    }
}

/// The type of a fragment with two children whose requirements are met.
#[tactic(auto, unfolding(def_types::proofs::Rows::correctness_rows))]
pub fn two_type(kind: Two, x: CorrectnessType, y: CorrectnessType) -> CorrectnessType
    ensures { result ≡ (two_row kind x y).gives }
{
    match kind {
        Two::AndV => CorrectnessType {
            n: x.n || x.z && y.n,
            u: y.u,
            ..both(y.base, x, y)
        },
        Two::AndB => CorrectnessType {
            n: x.n || x.z && y.n,
            d: x.d && y.d,
            u: true,
            ..both(Base::B, x, y)
        },
        Two::OrB => CorrectnessType {
            d: true,
            u: true,
            ..both(Base::B, x, y)
        },
        Two::OrC => first_or_both(Base::V, x, y),
        Two::OrD => CorrectnessType {
            d: y.d,
            u: y.u,
            ..first_or_both(Base::B, x, y)
        },
        Two::OrI => CorrectnessType {
            o: x.z && y.z,
            d: x.d || y.d,
            u: x.u && y.u,
            ..bare(x.base)
        },
    }
}

/// z and o where both children always take their part of the stack.
fn both(base: Base, x: CorrectnessType, y: CorrectnessType) -> CorrectnessType
    ensures { result ≡ record (the_bare base) { z = x.z && y.z; o = (x.z && y.o) || (y.z && x.o) } }
{
    CorrectnessType {
        z: x.z && y.z,
        o: x.z && y.o || y.z && x.o,
        ..bare(base)
    }
}

/// z and o where the first child takes its part alone or before the second.
fn first_or_both(base: Base, x: CorrectnessType, y: CorrectnessType) -> CorrectnessType
    ensures { result ≡ record (the_bare base) { z = x.z && y.z; o = x.o && y.z } }
{
    CorrectnessType {
        z: x.z && y.z,
        o: x.o && y.z,
        ..bare(base)
    }
}

/// The type of a `thresh` whose requirements are met.
#[tactic(auto, unfolding(def_types::proofs::Rows::correctness_rows))]
pub fn thresh_type(children: Children) -> CorrectnessType
    ensures { (k : ℕ) (types : List the_correctness_type) → children ≡ seen types → result ≡ (thresh_row k types).gives }
{
    CorrectnessType {
        z: children.all_z,
        o: children.all_z_but_one,
        ..ty!(B d u)
    }
}

/// The type of a `multi`.
#[tactic(auto, unfolding(def_types::proofs::Rows::correctness_rows))]
pub fn multi_type() -> CorrectnessType
    ensures { (k : ℕ) (keys : List Key) → result ≡ (multi_row k keys).gives }
{
    ty!(B n d u)
}

/// The type of a wrapper's node whose requirement is met.
#[tactic(auto, unfolding(def_types::proofs::Rows::correctness_rows))]
pub fn wrap_type(wrapper: Wrapper, x: CorrectnessType) -> CorrectnessType
    ensures { result ≡ (wrap_row wrapper x).gives }
{
    match wrapper {
        Wrapper::A | Wrapper::S => CorrectnessType {
            d: x.d,
            u: x.u,
            ..bare(Base::W)
        },
        Wrapper::C => CorrectnessType {
            base: Base::B,
            z: false,
            u: true,
            ..x
        },
        Wrapper::D => ty!(B o n d),
        Wrapper::V => CorrectnessType {
            base: Base::V,
            d: false,
            u: false,
            ..x
        },
        Wrapper::J => CorrectnessType {
            base: Base::B,
            z: false,
            n: true,
            d: true,
            ..x
        },
        Wrapper::N => CorrectnessType {
            base: Base::B,
            u: true,
            ..x
        },
    }
}
