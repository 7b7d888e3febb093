//! What a tree's Script comes to, without memory: its length, and its opcodes.
#![tactic(auto, using(crate::proofs::Counting::counted_behind))]

ghost use Rattle.std.specs.Prelude.{◌≡◌, ◌<◌, ◌≤◌, ◌*◌, length, map, All};
ghost use Rattle.def_emit.specs.Emit.{push_number as the_number, emit as the_emit, emit_sum as the_sum, emit_added as the_added, script_of};
ghost use Rattle.def_script.specs.Instruction.{opcode_count as the_opcode_count, push};
ghost use Rattle.def_tree.specs.Range.{TEN_DIGITS};
ghost use Rattle.def_tree.specs.InRange.{MOST_MEASURE, IsInRange, measure};
ghost use Rattle.def_tree.specs.Tree as tree;
ghost use Rattle.ms_hash.specs.Value.{kind_of, bytes_of};
ghost use Rattle.ms_tree.specs.Shape.{shape, shapes, leaf_shape};
ghost use Rattle.ms_extent.specs.Extent.{extended, extended_by};

use crate::arms::{
    and_or_arm, hash_arms, leaf_arms, list_opcodes, opcodes, pair_arms, wrapper_arms,
};
use crate::extent::Extent;
use crate::numbers::number_bytes;
use ms_script::Op;
use ms_tree::{HashValue, Key, Leaf, Tree, Two, View, Wrapper, fragment_rows};

/// The length in bytes of the encoded Script of a tree.
pub fn script_len(tree: &Tree<'_>) -> u64
    requires { IsInRange (shape tree.now) }
    ensures { result ≡ length (script_of (shape tree.now)) }
{
    script_extent(tree).bytes
}

/// How many instructions of a tree's Script aren't pushes. They are the opcodes above hex 60, which
/// Bitcoin Core counts (`MAX_OPS_PER_SCRIPT`).
pub fn opcode_count(tree: &Tree<'_>) -> u64
    requires { IsInRange (shape tree.now) }
    ensures count { result ≡ the_opcode_count (the_emit (shape tree.now)) }
    ensures few { result ≤ 8 * measure (shape tree.now) }
{
    script_extent(tree).opcodes
}

/// Both numbers by one walk.
pub fn script_extent(tree: &Tree<'_>) -> Extent
    requires { IsInRange (shape tree.now) }
    ensures bytes { result.bytes ≡ length (script_of (shape tree.now)) }
    ensures count { result.opcodes ≡ the_opcode_count (the_emit (shape tree.now)) }
    ensures few { result.opcodes ≤ 8 * measure (shape tree.now) }
{
    extent(tree)
}

/// What the Script of a tree comes to.
fn extent(tree: &Tree<'_>) -> Extent
    requires { IsInRange (shape tree.now) }
    ensures { result ≡ extended_by Extent.NONE (the_emit (shape tree.now)) }
{
    let mut extent = Extent::NONE;
    add_tree(&mut extent, tree);
    extent
}

/// Adds the Script of a tree.
#[cycle(add_tree)]
fn add_tree(extent: &mut Extent, tree: &Tree<'_>)
    requires { IsInRange (shape tree.now) }
    ensures { extent.new ≡ extended_by extent.old (the_emit (shape tree.now)) }
{
    match tree.view() {
        View::Leaf(leaf) => add_leaf(extent, leaf),
        View::AndOr(x, y, z) => add_and_or(extent, x, y, z),
        View::Two(kind, x, z) => add_two(extent, kind, x, z),
        View::Thresh(k, children) => add_thresh(extent, k, children),
        View::Multi(k, keys) => add_multi(extent, k, keys),
        View::Wrap(wrapper, x) => add_wrap(extent, wrapper, x),
    }
}

/// A step that never refuses.
macro_rules! step {
    ($step:expr) => {
        $step
    };
}

/// Adds the push of a key, or of its hash.
macro_rules! key_push {
    ($extent:ident, key, $key:ident) => {
        $extent.push($key.as_bytes());
    };
    ($extent:ident, hash160, $key:ident) => {
        let _ = $key;
        $extent.push_sized(20);
    };
}

fn add_leaf(extent: &mut Extent, leaf: Leaf)
    requires { IsInRange (leaf_shape leaf) }
    ensures { extent.new ≡ extended_by extent.old (the_emit (leaf_shape leaf)) }
{
    fragment_rows!(leaf_arms!(extent, leaf));
}

fn add_hash(extent: &mut Extent, value: &HashValue)
    ensures { extent.new ≡ extended_by extent.old (the_emit (tree.hash (kind_of value.now) (bytes_of value.now))) }
{
    fragment_rows!(hash_arms!(extent, value));
}

#[cycle(add_tree)]
fn add_and_or(extent: &mut Extent, x: &Tree<'_>, y: &Tree<'_>, z: &Tree<'_>)
    requires x { IsInRange (shape x.now) }
    requires y { IsInRange (shape y.now) }
    requires z { IsInRange (shape z.now) }
    ensures { extent.new ≡ extended_by extent.old (the_emit (tree.and_or (shape x.now) (shape y.now) (shape z.now))) }
{
    fragment_rows!(and_or_arm!(extent, x, y, z));
}

#[cycle(add_tree)]
fn add_two(extent: &mut Extent, kind: Two, x: &Tree<'_>, z: &Tree<'_>)
    requires x { IsInRange (shape x.now) }
    requires z { IsInRange (shape z.now) }
    ensures { extent.new ≡ extended_by extent.old (the_emit (tree.two kind (shape x.now) (shape z.now))) }
{
    fragment_rows!(pair_arms!(extent, kind, x, z));
}

/// The first child, each further one with ADD behind it, the number and EQUAL.
#[cycle(add_tree)]
fn add_thresh(extent: &mut Extent, k: u64, children: &[Tree<'_>])
    requires k { k < TEN_DIGITS }
    requires children { All (λ x. IsInRange (shape x)) children.now }
    ensures { extent.new ≡ extended_by extent.old (the_emit (tree.thresh k (shapes children.now))) }
{
    add_sum(extent, children);
    push_number(extent, k);
    fragment_rows!(list_opcodes!(extent, thresh));
}

#[cycle(add_tree)]
fn add_sum(extent: &mut Extent, children: &[Tree<'_>])
    requires { All (λ x. IsInRange (shape x)) children.now }
    ensures { extent.new ≡ extended_by extent.old (the_sum (shapes children.now)) }
{
    if let Some((first, others)) = children.split_first() {
        add_tree(extent, first);
        add_others(extent, others);
    }
}

#[cycle(add_tree)]
fn add_others(extent: &mut Extent, children: &[Tree<'_>])
    requires { All (λ x. IsInRange (shape x)) children.now }
    ensures { extent.new ≡ extended_by extent.old (the_added (shapes children.now)) }
{
    for child in children {
        add_tree(extent, child);
        fragment_rows!(list_opcodes!(extent, further child));
    }
}

/// The number of signatures, the keys, their number and CHECKMULTISIG.
fn add_multi(extent: &mut Extent, k: u64, keys: &[Key])
    requires k { k < TEN_DIGITS }
    requires keys { length keys.now < MOST_MEASURE }
    ensures { extent.new ≡ extended_by extent.old (the_emit (tree.multi k keys.now)) }
{
    push_number(extent, k);
    add_keys(extent, keys);
    push_number(extent, keys.len() as u64);
    fragment_rows!(list_opcodes!(extent, multi));
}

fn add_keys(extent: &mut Extent, keys: &[Key])
    ensures { extent.new ≡ extended_by extent.old (map push keys.now) }
{
    for key in keys {
        extent.push(key.as_bytes());
    }
}

#[cycle(add_tree)]
fn add_wrap(extent: &mut Extent, wrapper: Wrapper, x: &Tree<'_>)
    requires { IsInRange (shape x.now) }
    ensures { extent.new ≡ extended_by extent.old (the_emit (tree.wrap wrapper (shape x.now))) }
{
    fragment_rows!(wrapper_arms!(extent, wrapper, x));
}

/// Adds the push of a number in its shortest form.
fn push_number(extent: &mut Extent, number: u64)
    requires { number < TEN_DIGITS }
    ensures { extent.new ≡ extended extent.old (the_number number) }
{
    extent.push(number_bytes(number).as_slice());
}
