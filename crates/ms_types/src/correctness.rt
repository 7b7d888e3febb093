//! The correctness type system (BIP 379, type system, correctness).
ghost use Rattle.std.specs.Prelude.{◌≡◌, ◌<◌, IfErr};
ghost use Rattle.def_tree.specs.InRange.{IsInRange};
ghost use Rattle.def_tree.specs.Size.{nodes};
ghost use Rattle.def_types.specs.Correctness.{correctness, correctness_of as the_correctness_of};
ghost use Rattle.ms_tree.specs.Shape.{shape};
ghost use Rattle.ms_types.specs.Scaffolding.Children.{seen as children_seen};

use crate::children::Children;
use crate::properties::{and_or_type, leaf_type, multi_type, thresh_type, two_type, wrap_type};
use crate::requirements::{
    require_and_or, require_leaf, require_multi, require_thresh, require_two, require_wrap,
};
use crate::system::{TypeSystem, typed};
use def_types::{CorrectnessType, Rule, RuleAt};
use ms_tree::{Key, Leaf, Tree, Two, Wrapper};

/// The correctness type of a tree (BIP 379, type system, correctness), or the first requirement that is
/// false: by the number of its node, and then in the order of the table. Nodes are numbered from 0,
/// children before parents and left to right.
pub fn correctness_of(tree: &Tree<'_>) -> Result<CorrectnessType, RuleAt>
    requires { IsInRange (shape tree.now) }
    ensures ty { result ≡ the_correctness_of (shape tree.now) }
    ensures node { IfErr result (λ at. at.node < nodes (shape tree.now)) }
{
    typed(tree, &mut 0)
}

impl TypeSystem for CorrectnessType {
    type Children = Children;

    ghost rows = { correctness };

    ghost seen = { children_seen };

    fn of_leaf(leaf: &Leaf) -> Result<CorrectnessType, Rule> {
        require_leaf(leaf)?;
        Ok(leaf_type(leaf))
    }

    fn of_and_or(
        x: CorrectnessType,
        y: CorrectnessType,
        z: CorrectnessType,
    ) -> Result<CorrectnessType, Rule> {
        require_and_or(x, y, z)?;
        Ok(and_or_type(x, y, z))
    }

    fn of_two(kind: Two, x: CorrectnessType, y: CorrectnessType) -> Result<CorrectnessType, Rule> {
        require_two(kind, x, y)?;
        Ok(two_type(kind, x, y))
    }

    fn no_children() -> Children {
        Children::NONE
    }

    fn and_child(children: Children, child: CorrectnessType) -> Children {
        children.and(child)
    }

    fn of_thresh(k: u64, children: Children) -> Result<CorrectnessType, Rule> {
        require_thresh(k, children)?;
        Ok(thresh_type(children))
    }

    fn of_multi(k: u64, keys: &[Key]) -> Result<CorrectnessType, Rule> {
        require_multi(k, keys.len() as u64)?;
        Ok(multi_type())
    }

    fn of_wrap(wrapper: Wrapper, x: CorrectnessType) -> Result<CorrectnessType, Rule> {
        require_wrap(wrapper, x)?;
        Ok(wrap_type(wrapper, x))
    }
}
