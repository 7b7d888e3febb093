//! The lines of a tree's nodes: a node before its children, and these left to right.
ghost use Rattle.std.specs.Prelude.{◌≡◌, ◌+◌, ◌-◌, ◌<◌, ◌≤◌, ◌^◌, ◌++◌, flat_map, length, slice_get, All, OnOk, Option, Some};
ghost use Rattle.std.specs.String.{string_bytes};
ghost use Rattle.def_tree.specs.InRange.{IsInRange, depth as depth_of_tree, depth_of};
ghost use Rattle.def_tree.specs.Nodes.{all_nodes, nodes_of_all};
ghost use Rattle.def_tree.specs.Size.{nodes, nodes_of};
ghost use Rattle.def_types.specs.declared.CorrectnessType.{CorrectnessType};
ghost use Rattle.def_types.specs.declared.MalleabilityProperties.{MalleabilityProperties};
ghost use Rattle.def_outline.specs.Outline.{outline, outlines, node};
ghost use Rattle.def_answer.specs.Outline.{node_line, outline_report};
ghost use Rattle.ms_tree.specs.Shape.{shape, shapes};
ghost use Rattle.ms_outline.specs.Scaffolding.Typed.{AreTypesOf, StandTold, told_type};

use crate::heads::push_head;
use crate::number::push_number;
use crate::types::{NodeTypes, push_type};
use ms_text::TextTree;
use ms_tree::{Tree, View};
use std::alloc::{AllocError, Global};

/// Adds a line for each node of a text's tree: its place, its depth, the type of what stands below it alone, and what it is.
/// `AllocError` comes only where memory is wanting; nothing is said then of what the report holds.
#[tactic(auto, unfolding(def_answer::specs::Outline::outline_report))]
pub fn push_outline(
    alloc: Global,
    report: &mut String,
    text: &TextTree<'_>,
) -> Result<(), AllocError>
    requires { IsInRange (shape text.now.tree) }
    ensures { OnOk result (string_bytes report.new ≡ string_bytes report.old ++ outline_report text.now.offsets.items (shape text.now.tree)) }
{
    let types = NodeTypes::new(alloc, text.tree())?;
    let tree = text.tree();
    let root = tree.nodes() - 1;
    push_tree(
        alloc,
        report,
        text.offsets.as_slice(),
        &types,
        tree,
        0,
        root,
        0,
    )
}

/// Adds the lines of a tree at a depth, whose nodes have the numbers from `first` to `own`, which is the root's.
#[cycle(push_tree)]
fn push_tree(
    alloc: Global,
    report: &mut String,
    offsets: &[u32],
    types: &NodeTypes,
    tree: &Tree<'_>,
    first: u32,
    own: u32,
    depth: u32,
) -> Result<(), AllocError>
    requires range { IsInRange (shape tree.now) }
    requires types { AreTypesOf types.now.correctness.items types.now.malleability.items first (all_nodes (shape tree.now)) }
    requires places { first + nodes (shape tree.now) ≤ length offsets.now }
    requires room { depth + depth_of_tree (shape tree.now) < 2 ^ 32 }
    requires numbers { first + nodes (shape tree.now) < 2 ^ 32 }
    requires own { own ≡ first + (nodes (shape tree.now) - 1) }
    ensures { OnOk result (string_bytes report.new ≡ string_bytes report.old ++ flat_map (node_line offsets.now) (outline first depth (shape tree.now))) }
{
    push_node(alloc, report, offsets, types, tree, own, depth)?;
    match tree.view() {
        View::Leaf(_) | View::Multi(..) => Ok(()),
        View::AndOr(x, y, z) => {
            let second = first + x.nodes();
            let third = second + y.nodes();
            push_tree(
                alloc,
                report,
                offsets,
                types,
                x,
                first,
                second - 1,
                depth + 1,
            )?;
            push_tree(
                alloc,
                report,
                offsets,
                types,
                y,
                second,
                third - 1,
                depth + 1,
            )?;
            push_tree(alloc, report, offsets, types, z, third, own - 1, depth + 1)
        }
        View::Two(_, x, y) => {
            let second = first + x.nodes();
            push_tree(
                alloc,
                report,
                offsets,
                types,
                x,
                first,
                second - 1,
                depth + 1,
            )?;
            push_tree(alloc, report, offsets, types, y, second, own - 1, depth + 1)
        }
        View::Thresh(_, children) => {
            push_trees(alloc, report, offsets, types, children, first, depth + 1)
        }
        View::Wrap(_, x) => push_tree(alloc, report, offsets, types, x, first, own - 1, depth + 1),
    }
}

/// The same of trees side by side.
#[cycle(push_tree)]
fn push_trees(
    alloc: Global,
    report: &mut String,
    offsets: &[u32],
    types: &NodeTypes,
    trees: &[Tree<'_>],
    first: u32,
    depth: u32,
) -> Result<(), AllocError>
    requires range { All (λ x. IsInRange (shape x)) trees.now }
    requires types { AreTypesOf types.now.correctness.items types.now.malleability.items first (nodes_of_all (shapes trees.now)) }
    requires places { first + nodes_of (shapes trees.now) ≤ length offsets.now }
    requires room { depth + depth_of (shapes trees.now) < 2 ^ 32 }
    requires numbers { first + nodes_of (shapes trees.now) < 2 ^ 32 }
    ensures { OnOk result (string_bytes report.new ≡ string_bytes report.old ++ flat_map (node_line offsets.now) (outlines first depth (shapes trees.now))) }
{
    let mut next = first;
    for tree in trees {
        let behind = next + tree.nodes();
        push_tree(alloc, report, offsets, types, tree, next, behind - 1, depth)?;
        next = behind;
    }
    Ok(())
}

/// Adds the line of a node.
fn push_node(
    alloc: Global,
    report: &mut String,
    offsets: &[u32],
    types: &NodeTypes,
    tree: &Tree<'_>,
    own: u32,
    depth: u32,
) -> Result<(), AllocError>
    requires range { IsInRange (shape tree.now) }
    requires place { own < length offsets.now }
    requires types { StandTold types.now.correctness.items types.now.malleability.items own (shape tree.now) }
    ensures { OnOk result (string_bytes report.new ≡ string_bytes report.old ++ node_line offsets.now (node own depth (shape tree.now))) }
{
    let at = own as usize;
    report.push_str("node ")?;
    push_number(report, offsets[at] as u64)?;
    report.push_str(" ")?;
    push_number(report, depth as u64)?;
    report.push_str(" ")?;
    push_type_at(report, types, at)?;
    report.push_str(" ")?;
    push_head(alloc, report, tree)?;
    report.push_str("\n")
}

/// Adds the type of the node of this number.
#[tactic(auto, using(std::proofs::lemmas::Option::get_or_from_slice_get))]
fn push_type_at(report: &mut String, types: &NodeTypes, at: usize) -> Result<(), AllocError>
    requires correctness { at < length types.now.correctness.items }
    requires malleability { at < length types.now.malleability.items }
    ensures { (c : Option CorrectnessType) (m : Option MalleabilityProperties) → slice_get types.now.correctness.items at ≡ Some c → slice_get types.now.malleability.items at ≡ Some m →
        OnOk result (string_bytes report.new ≡ string_bytes report.old ++ told_type c m) }
{
    push_type(report, types.correctness[at], types.malleability[at])
}
