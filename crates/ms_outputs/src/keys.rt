//! The keys of a descriptor at a branch and an index (BIP 32).

ghost use Rattle.std.specs.Prelude.{◌≡◌, map, All, Some, IfSome};
ghost use Rattle.std.specs.Option.{option_map};
ghost use Rattle.def_curve.specs.Encoding.{compressed as the_compressed};
ghost use Rattle.def_derive.specs.Child.{descendant};
ghost use Rattle.def_descriptor.specs.Gives.{number_at as the_number_at};
ghost use Rattle.ms_point.specs.Standing.{IsAffine, point_at};
ghost use Rattle.ms_derive.specs.Nodes.{node_at};
ghost use Rattle.ms_paths.specs.Paths.{way_at};
ghost use Rattle.ms_outputs.specs.Keys.{HasKeys};
ghost use Rattle.ms_outputs.specs.Starts.{left_number, IsSafe, StartsSafe, start_key as the_start_key, start_keys};

use crate::given::GivenFault;
use crate::starts::{Left, Reached, Start};
use ms_derive::{Node, child, compressed};
use ms_descriptor::Way;
use ms_point::Affine;
use ms_tree::Key;
use std::alloc::Global;

/// The number of a step at a branch and an index. Takes no memory.
pub fn number_at(way: &Way, branch: usize, index: u32) -> u32
    ensures { result ≡ the_number_at branch index (way_at way.now) }
{
    match way {
        Way::Number(number) => *number,
        Way::Branches(numbers) => numbers.get(branch).copied().unwrap_or(0),
        Way::Index => index,
    }
}

/// The number of a step that is left, at an index. Takes no memory.
fn number_left(left: &Left, index: u32) -> u32
    ensures { result ≡ left_number index left.now }
{
    match left {
        Left::Number(number) => *number,
        Left::Index => index,
    }
}

/// The node that the steps that are left lead to at an index: none where one of them has none. Takes no memory.
fn descend(first: Node, left: &[Left], index: u32) -> Option<Node>
    requires { IsAffine first.point }
    ensures node { option_map node_at result ≡ descendant (map (left_number index) left.now) (node_at first) }
    ensures affine { IfSome result (λ node. IsAffine node.point) }
{
    let mut node = first;
    for step in left {
        node = child(&node, number_left(step, index))?;
    }
    Some(node)
}

/// The key of a point.
fn key_of(point: Affine) -> Option<Key>
    ensures { result ≡ Some (the_compressed (point_at point)) }
{
    Key::from_bytes(&compressed(point))
}

/// The key at an index of what was reached: none where one of the steps that are left has none. Takes no memory.
fn start_key(reached: &Reached, index: u32) -> Option<Key>
    requires { IsSafe reached.now }
    ensures { result ≡ the_start_key index reached.now }
{
    match reached {
        Reached::Key(key) => Some(*key),
        Reached::Node(node, left) => {
            let last = descend(*node, left, index)?;
            key_of(last.point)
        }
        Reached::Nothing => None,
    }
}

/// The keys of some starts at an index, in their order; or the place of the first expression without one.
pub fn keys_from(alloc: Global, starts: &[Start], index: u32) -> Result<Vec<Key>, GivenFault>
    requires { All StartsSafe starts.now }
    ensures { HasKeys (start_keys index starts.now) result }
{
    let mut keys = Vec::new(alloc);
    for start in starts {
        let Some(key) = start_key(&start.reached, index) else {
            return Err(GivenFault::NoKey(start.at));
        };
        keys.push(key)?;
    }
    Ok(keys)
}
