//! The malleability properties (BIP 379, type system, malleability).
#![tactic(auto, unfolding(def_types::proofs::Rows::malleability_rows))]

ghost use Rattle.std.specs.Prelude.{◌≡◌, ◌<◌, IfErr};
ghost use Rattle.def_tree.specs.InRange.{IsInRange};
ghost use Rattle.def_tree.specs.Size.{nodes};
ghost use Rattle.def_types.specs.Malleable.{malleability, malleability_of as the_malleability_of, two_row};
ghost use Rattle.ms_tree.specs.Shape.{shape};
ghost use Rattle.ms_types.specs.Checked.{requirements};
ghost use Rattle.ms_types.specs.Scaffolding.Signed.{signed};

use crate::children::Signed;
use crate::requirements::require;
use crate::system::{TypeSystem, typed};
use def_types::{MalleabilityProperties, Rule, RuleAt};
use ms_tree::{Key, Leaf, Tree, Two, Wrapper, fragment_rows};

/// The malleability properties of a tree (BIP 379, type system, malleability), or the first requirement
/// that is false: by the number of its node, and then in the order of the table. A requirement is asked
/// of every node. Nodes are numbered from 0, children before parents and left to right.
pub fn malleability_of(tree: &Tree<'_>) -> Result<MalleabilityProperties, RuleAt>
    requires { IsInRange (shape tree.now) }
    ensures malleability_of { result ≡ the_malleability_of (shape tree.now) }
    ensures node { IfErr result (λ at. at.node < nodes (shape tree.now)) }
{
    typed(tree, &mut 0)
}

/// The properties that are named, and no others.
macro_rules! properties {
    ($($property:ident)*) => {
        MalleabilityProperties {
            $($property: true,)*
            ..NONE
        }
    };
}

const NONE: MalleabilityProperties = MalleabilityProperties {
    s: false,
    f: false,
    e: false,
};

/// A property of a child that a row names: X, Y and Z of `andor`, X and Z of the others.
macro_rules! property {
    (($x:ident, $($others:ident),*) x $property:ident) => {
        $x.$property
    };
    (($x:ident, $y:ident, $z:ident) y $property:ident) => {
        $y.$property
    };
    (($x:ident, $y:ident, $z:ident) z $property:ident) => {
        $z.$property
    };
    (($x:ident, $z:ident) z $property:ident) => {
        $z.$property
    };
}

/// Refuses unless all children that a requirement names have the property e, or one of them has s.
macro_rules! require_property {
    ($children:tt, ($rule:ident e $($child:ident)*)) => {
        require!($rule, $(property!($children $child e))&&*);
    };
    ($children:tt, ($rule:ident s $($child:ident)*)) => {
        require!($rule, $(property!($children $child s))||*);
    };
}

/// Refuses unless the children have what their row requires of them.
macro_rules! require_properties {
    ($children:tt, ($($requirement:tt)*)) => {
        $(require_property!($children, $requirement);)*
    };
}

macro_rules! and_or_arm {
    (
        ($x:ident, $y:ident, $z:ident)
        numbers $numbers:tt keys $keys:tt locks $locks:tt hashes $hashes:tt
        and_or { [$variant:ident $name:literal 3 $needs:tt $properties:tt $($ops:tt)*] }
        $($rows:tt)*
    ) => {
        require_properties!(($x, $y, $z), $properties);
    };
}

macro_rules! pair_arms {
    (
        ($kind:ident, $x:ident, $z:ident)
        numbers $numbers:tt keys $keys:tt locks $locks:tt hashes $hashes:tt and_or $and_or:tt
        pairs { $([$variant:ident $name:literal 2 $needs:tt $properties:tt $($ops:tt)*])* }
        $($rows:tt)*
    ) => {
        match $kind {
            $(Two::$variant => {
                require_properties!(($x, $z), $properties);
            })*
        }
    };
}

macro_rules! thresh_arm {
    (
        ($k:ident, $children:ident)
        numbers $numbers:tt keys $keys:tt locks $locks:tt hashes $hashes:tt and_or $and_or:tt pairs $pairs:tt
        lists { [Thresh $name:literal $needs:tt (($all:ident e) ($few:ident s)) $($ops:tt)*] $multi:tt }
        $($rows:tt)*
    ) => {
        require!($all, $children.all_e);
        require!($few, $children.unsigned <= $k);
    };
}

impl TypeSystem for MalleabilityProperties {
    type Children = Signed;

    ghost rows = { malleability };

    ghost seen = { signed };

    fn of_leaf(leaf: &Leaf) -> Result<MalleabilityProperties, Rule> {
        Ok(match leaf {
            Leaf::Zero | Leaf::PkK(_) | Leaf::PkH(_) => properties!(s e),
            Leaf::One | Leaf::Older(_) | Leaf::After(_) => properties!(f),
            Leaf::Hash(_) => NONE,
        })
    }

    fn of_and_or(
        x: MalleabilityProperties,
        y: MalleabilityProperties,
        z: MalleabilityProperties,
    ) -> Result<MalleabilityProperties, Rule> {
        fragment_rows!(and_or_arm!(x, y, z));
        Ok(MalleabilityProperties {
            s: z.s && (x.s || y.s),
            f: z.f && (x.s || y.f),
            e: z.e && (x.s || y.f),
        })
    }

    fn of_two(
        kind: Two,
        x: MalleabilityProperties,
        y: MalleabilityProperties,
    ) -> Result<MalleabilityProperties, Rule> {
        require_two(kind, x, y)?;
        Ok(of_pair(kind, x, y))
    }

    fn no_children() -> Signed {
        Signed::NONE
    }

    fn and_child(children: Signed, child: MalleabilityProperties) -> Signed {
        children.and(child)
    }

    #[tactic(auto, using(crate::proofs::Signing::all_s), unfolding(def_types::proofs::Rows::malleability_rows))]
    fn of_thresh(k: u64, children: Signed) -> Result<MalleabilityProperties, Rule> {
        fragment_rows!(thresh_arm!(k, children));
        Ok(MalleabilityProperties {
            s: children.unsigned < k,
            f: false,
            e: children.unsigned == 0,
        })
    }

    fn of_multi(_k: u64, _keys: &[Key]) -> Result<MalleabilityProperties, Rule> {
        Ok(properties!(s e))
    }

    fn of_wrap(
        wrapper: Wrapper,
        x: MalleabilityProperties,
    ) -> Result<MalleabilityProperties, Rule> {
        Ok(match wrapper {
            Wrapper::A | Wrapper::S | Wrapper::N => x,
            Wrapper::C => MalleabilityProperties { s: true, ..x },
            Wrapper::D => MalleabilityProperties {
                s: x.s,
                ..properties!(e)
            },
            Wrapper::V => MalleabilityProperties {
                s: x.s,
                ..properties!(f)
            },
            Wrapper::J => MalleabilityProperties {
                s: x.s,
                f: false,
                e: x.f,
            },
        })
    }
}

/// What a fragment with two children requires of their properties.
fn require_two(kind: Two, x: MalleabilityProperties, y: MalleabilityProperties) -> Result<(), Rule>
    ensures { result ≡ requirements (two_row kind x y) }
{
    fragment_rows!(pair_arms!(kind, x, y));
    Ok(())
}

/// The properties of a fragment with two children.
fn of_pair(
    kind: Two,
    x: MalleabilityProperties,
    y: MalleabilityProperties,
) -> MalleabilityProperties
    ensures { result ≡ (two_row kind x y).gives }
{
    match kind {
        Two::AndV => MalleabilityProperties {
            s: x.s || y.s,
            f: x.s || y.f,
            e: false,
        },
        Two::AndB => MalleabilityProperties {
            s: x.s || y.s,
            f: x.f && y.f || x.s && x.f || y.s && y.f,
            e: x.e && y.e && x.s && y.s,
        },
        Two::OrB => MalleabilityProperties {
            s: x.s && y.s,
            ..properties!(e)
        },
        Two::OrC => MalleabilityProperties {
            s: x.s && y.s,
            ..properties!(f)
        },
        Two::OrD => MalleabilityProperties {
            s: x.s && y.s,
            f: y.f,
            e: y.e,
        },
        Two::OrI => MalleabilityProperties {
            s: x.s && y.s,
            f: x.f && y.f,
            e: x.e && y.f || y.e && x.f,
        },
    }
}
