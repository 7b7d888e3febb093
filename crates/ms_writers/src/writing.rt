//! Who writes each instruction of a tree's Script, by the rows of the translation table (BIP 379).
#![tactic(auto, using(crate::proofs::Joined::written_behind))]

ghost use Rattle.std.specs.Prelude.{◌≡◌, ℕ, ◌+◌, map, IfOk, OnOk, All};
ghost use Rattle.def_emit.specs.Emit.{hash_opcode as the_hash_opcode};
ghost use Rattle.def_trace.specs.Writers.{Attributed, attributed, attributed_sum, attributed_added};
ghost use Rattle.def_tree.specs.InRange.{IsInRange};
ghost use Rattle.def_tree.specs.Size.{nodes, nodes_of};
ghost use Rattle.def_tree.specs.Tree as tree;
ghost use Rattle.ms_hash.specs.Value.{kind_of, bytes_of};
ghost use Rattle.ms_tree.specs.Shape.{shape, shapes, leaf_shape};
ghost use Rattle.ms_writers.specs.Scaffolding.Wrote.{wrote_all};

use crate::written::Written;
use ms_hash::{HashKind, HashValue};
use ms_script::Op;
use ms_tree::{Key, Leaf, Tree, Two, View, Wrapper};
use std::alloc::{AllocError, Global};

/// The number of the node that writes each instruction of a tree's Script, in the order of the instructions.
#[tactic(auto, using(crate::proofs::Joined::writers_kept))]
pub fn writers(alloc: Global, tree: &Tree<'_>) -> Result<Vec<u32>, AllocError>
    requires { IsInRange (shape tree.now) }
    ensures { IfOk result (λ nodes. nodes.items ≡ map (λ (a : Attributed). a.writer) (attributed 0 (shape tree.now))) }
{
    let mut written = Written::new(alloc);
    add_tree(&mut written, tree, 0, tree.nodes())?;
    Ok(written.nodes())
}

/// Adds the writers of a tree, whose nodes have the numbers from `first` on, up to `end`.
#[cycle(add_tree)]
fn add_tree(written: &mut Written, tree: &Tree<'_>, first: u32, end: u32) -> Result<(), AllocError>
    requires range { IsInRange (shape tree.now) }
    requires end { end ≡ first + nodes (shape tree.now) }
    ensures { OnOk result (written.new ≡ wrote_all written.old (attributed first (shape tree.now))) }
{
    match tree.view() {
        View::Leaf(leaf) => add_leaf(written, leaf, first),
        View::AndOr(x, y, z) => add_and_or(written, x, y, z, first, end - 1),
        View::Two(kind, x, y) => add_two(written, kind, x, y, first, end - 1),
        View::Thresh(_, children) => add_thresh(written, children, first, end - 1),
        View::Multi(_, keys) => add_multi(written, keys, first),
        View::Wrap(wrapper, x) => add_wrap(written, wrapper, x, first, end - 1),
    }
}

fn add_leaf(written: &mut Written, leaf: Leaf, node: u32) -> Result<(), AllocError>
    ensures { OnOk result (written.new ≡ wrote_all written.old (attributed node (leaf_shape leaf))) }
{
    match leaf {
        Leaf::Zero | Leaf::One | Leaf::PkK(_) => written.push(node),
        Leaf::PkH(_) => {
            written.code(node, Op::Dup)?;
            written.code(node, Op::Hash160)?;
            written.push(node)?;
            written.code(node, Op::EqualVerify)
        }
        Leaf::Older(_) => {
            written.push(node)?;
            written.code(node, Op::CheckSequenceVerify)
        }
        Leaf::After(_) => {
            written.push(node)?;
            written.code(node, Op::CheckLockTimeVerify)
        }
        Leaf::Hash(value) => add_hash(written, &value, node),
    }
}

/// SIZE, 32, EQUALVERIFY, the hash function, the hash value and EQUAL.
fn add_hash(written: &mut Written, value: &HashValue, node: u32) -> Result<(), AllocError>
    ensures { OnOk result (written.new ≡ wrote_all written.old (attributed node (tree.hash (kind_of value.now) (bytes_of value.now)))) }
{
    written.code(node, Op::Size)?;
    written.push(node)?;
    written.code(node, Op::EqualVerify)?;
    written.code(node, hash_opcode(value.kind()))?;
    written.push(node)?;
    written.code(node, Op::Equal)
}

fn hash_opcode(kind: HashKind) -> Op
    ensures { result ≡ the_hash_opcode kind }
{
    match kind {
        HashKind::Sha256 => Op::Sha256,
        HashKind::Hash256 => Op::Hash256,
        HashKind::Ripemd160 => Op::Ripemd160,
        HashKind::Hash160 => Op::Hash160,
    }
}

/// X, NOTIF, Z, ELSE, Y and ENDIF, by a node that has the number `own`.
#[cycle(add_tree)]
fn add_and_or(
    written: &mut Written,
    x: &Tree<'_>,
    y: &Tree<'_>,
    z: &Tree<'_>,
    first: u32,
    own: u32,
) -> Result<(), AllocError>
    requires x { IsInRange (shape x.now) }
    requires y { IsInRange (shape y.now) }
    requires z { IsInRange (shape z.now) }
    requires own { own ≡ first + nodes (shape x.now) + nodes (shape y.now) + nodes (shape z.now) }
    ensures { OnOk result (written.new ≡ wrote_all written.old (attributed first (tree.and_or (shape x.now) (shape y.now) (shape z.now)))) }
{
    let second = first + x.nodes();
    let third = second + y.nodes();
    add_tree(written, x, first, second)?;
    written.code(own, Op::NotIf)?;
    add_tree(written, z, third, own)?;
    written.code(own, Op::Else)?;
    add_tree(written, y, second, third)?;
    written.code(own, Op::EndIf)
}

/// A fragment with two children, by a node that has the number `own`. `and_v` writes nothing itself.
#[cycle(add_tree)]
fn add_two(
    written: &mut Written,
    kind: Two,
    x: &Tree<'_>,
    y: &Tree<'_>,
    first: u32,
    own: u32,
) -> Result<(), AllocError>
    requires x { IsInRange (shape x.now) }
    requires y { IsInRange (shape y.now) }
    requires own { own ≡ first + nodes (shape x.now) + nodes (shape y.now) }
    ensures { OnOk result (written.new ≡ wrote_all written.old (attributed first (tree.two kind (shape x.now) (shape y.now)))) }
{
    let second = first + x.nodes();
    match kind {
        Two::AndV => {
            add_tree(written, x, first, second)?;
            add_tree(written, y, second, own)
        }
        Two::AndB => {
            add_tree(written, x, first, second)?;
            add_tree(written, y, second, own)?;
            written.code(own, Op::BoolAnd)
        }
        Two::OrB => {
            add_tree(written, x, first, second)?;
            add_tree(written, y, second, own)?;
            written.code(own, Op::BoolOr)
        }
        Two::OrC => {
            add_tree(written, x, first, second)?;
            written.code(own, Op::NotIf)?;
            add_tree(written, y, second, own)?;
            written.code(own, Op::EndIf)
        }
        Two::OrD => {
            add_tree(written, x, first, second)?;
            written.code(own, Op::IfDup)?;
            written.code(own, Op::NotIf)?;
            add_tree(written, y, second, own)?;
            written.code(own, Op::EndIf)
        }
        Two::OrI => {
            written.code(own, Op::If)?;
            add_tree(written, x, first, second)?;
            written.code(own, Op::Else)?;
            add_tree(written, y, second, own)?;
            written.code(own, Op::EndIf)
        }
    }
}

/// The first child, each further one with ADD behind it, the number and EQUAL, by a node that has the number `own`.
#[cycle(add_tree)]
fn add_thresh(
    written: &mut Written,
    children: &[Tree<'_>],
    first: u32,
    own: u32,
) -> Result<(), AllocError>
    requires children { All (λ x. IsInRange (shape x)) children.now }
    requires own { own ≡ first + nodes_of (shapes children.now) }
    ensures { (k : ℕ) → OnOk result (written.new ≡ wrote_all written.old (attributed first (tree.thresh k (shapes children.now)))) }
{
    add_sum(written, children, first, own)?;
    written.push(own)?;
    written.code(own, Op::Equal)
}

/// The first child of a threshold, and each further one with ADD behind it.
#[cycle(add_tree)]
fn add_sum(
    written: &mut Written,
    children: &[Tree<'_>],
    first: u32,
    own: u32,
) -> Result<(), AllocError>
    requires children { All (λ x. IsInRange (shape x)) children.now }
    requires own { own ≡ first + nodes_of (shapes children.now) }
    ensures { OnOk result (written.new ≡ wrote_all written.old (attributed_sum first own (shapes children.now))) }
{
    match children.split_first() {
        Some((child, others)) => {
            let second = first + child.nodes();
            add_tree(written, child, first, second)?;
            add_others(written, others, second, own)
        }
        None => Ok(()),
    }
}

/// Each further child of a threshold, with ADD behind it.
#[cycle(add_tree)]
fn add_others(
    written: &mut Written,
    children: &[Tree<'_>],
    first: u32,
    own: u32,
) -> Result<(), AllocError>
    requires children { All (λ x. IsInRange (shape x)) children.now }
    requires own { own ≡ first + nodes_of (shapes children.now) }
    ensures { OnOk result (written.new ≡ wrote_all written.old (attributed_added first own (shapes children.now))) }
{
    let mut next = first;
    for child in children {
        let end = next + child.nodes();
        add_tree(written, child, next, end)?;
        written.code(own, Op::Add)?;
        next = end;
    }
    Ok(())
}

/// The number of signatures, the keys, their number and CHECKMULTISIG.
fn add_multi(written: &mut Written, keys: &[Key], node: u32) -> Result<(), AllocError>
    ensures { (k : ℕ) → OnOk result (written.new ≡ wrote_all written.old (attributed node (tree.multi k keys.now))) }
{
    written.push(node)?;
    for _key in keys {
        written.push(node)?;
    }
    written.push(node)?;
    written.code(node, Op::CheckMultiSig)
}

/// A wrapper, by a node that has the number `own`. `v` writes VERIFY only where no form of X's last opcode does it.
#[cycle(add_tree)]
fn add_wrap(
    written: &mut Written,
    wrapper: Wrapper,
    x: &Tree<'_>,
    first: u32,
    own: u32,
) -> Result<(), AllocError>
    requires x { IsInRange (shape x.now) }
    requires own { own ≡ first + nodes (shape x.now) }
    ensures { OnOk result (written.new ≡ wrote_all written.old (attributed first (tree.wrap wrapper (shape x.now)))) }
{
    match wrapper {
        Wrapper::A => {
            written.code(own, Op::ToAltStack)?;
            add_tree(written, x, first, own)?;
            written.code(own, Op::FromAltStack)
        }
        Wrapper::S => {
            written.code(own, Op::Swap)?;
            add_tree(written, x, first, own)
        }
        Wrapper::C => {
            add_tree(written, x, first, own)?;
            written.code(own, Op::CheckSig)
        }
        Wrapper::D => {
            written.code(own, Op::Dup)?;
            written.code(own, Op::If)?;
            add_tree(written, x, first, own)?;
            written.code(own, Op::EndIf)
        }
        Wrapper::V => {
            add_tree(written, x, first, own)?;
            written.verify(own)
        }
        Wrapper::J => {
            written.code(own, Op::Size)?;
            written.code(own, Op::ZeroNotEqual)?;
            written.code(own, Op::If)?;
            add_tree(written, x, first, own)?;
            written.code(own, Op::EndIf)
        }
        Wrapper::N => {
            add_tree(written, x, first, own)?;
            written.code(own, Op::ZeroNotEqual)
        }
    }
}
