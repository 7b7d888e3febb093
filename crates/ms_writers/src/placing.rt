//! The places of the nodes that write a Script, in the text of its tree.
ghost use Rattle.std.specs.Prelude.{◌≡◌, ◌<◌, length, map, slice_index, All, IfOk};
ghost use Rattle.def_emit.specs.Emit.{emit};
ghost use Rattle.def_trace.specs.Writers.{places_of};
ghost use Rattle.def_tree.specs.InRange.{IsInRange};
ghost use Rattle.def_tree.specs.Size.{nodes};
ghost use Rattle.ms_tree.specs.Shape.{shape};

use crate::writing::writers;
use ms_tree::Tree;
use std::alloc::{AllocError, Global};

/// The place in a text of the node that writes each instruction of its tree's Script, in the order of the instructions: the
/// node in whose row of the translation table (BIP 379) it stands. `offsets` are the places of all nodes in the order of
/// their numbers, as `TextTree` has them. `AllocError` comes only where memory is wanting.
///
/// A form that does VERIFY too is of the node that wrote the opcode of which it is one, so `v` has an instruction only where
/// it writes VERIFY alone. `and_v` has none.
pub fn places(alloc: Global, tree: &Tree<'_>, offsets: &[u32]) -> Result<Vec<usize>, AllocError>
    requires in_range { IsInRange (shape tree.now) }
    requires node_each { length offsets.now ≡ nodes (shape tree.now) }
    ensures places { IfOk result (λ places. places.items ≡ places_of offsets.now (shape tree.now)) }
    ensures one_each { IfOk result (λ places. length places.items ≡ length (emit (shape tree.now))) }
{
    let nodes = writers(alloc, tree)?;
    let places = places_at(alloc, nodes.as_slice(), offsets)?;
    Ok(places)
}

/// The offsets of these nodes.
fn places_at(alloc: Global, nodes: &[u32], offsets: &[u32]) -> Result<Vec<usize>, AllocError>
    requires { All (λ node. node < length offsets.now) nodes.now }
    ensures { IfOk result (λ places. places.items ≡ map (λ node. slice_index offsets.now node) nodes.now) }
{
    let mut places = Vec::new(alloc);
    for node in nodes {
        places.push(offsets[*node as usize] as usize)?;
    }
    Ok(places)
}
