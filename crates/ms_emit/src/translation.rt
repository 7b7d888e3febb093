//! The translation of each fragment to instructions (BIP 379), and the bytes of the whole Script.
ghost use Rattle.std.specs.Prelude.{◌≡◌, ◌<◌, ◌++◌, [], ◌∷◌, length, IfOk, OnOk, All};
ghost use Rattle.def_emit.specs.Emit.{push_number as the_number, script_of, emit as the_emit, emit_added as the_added};
ghost use Rattle.def_script.specs.Spell.{IsShort};
ghost use Rattle.def_tree.specs.Range.{TEN_DIGITS};
ghost use Rattle.def_tree.specs.InRange.{MOST_MEASURE, IsInRange};
ghost use Rattle.def_tree.specs.Tree as tree;
ghost use Rattle.ms_hash.specs.Value.{kind_of, bytes_of};
ghost use Rattle.ms_tree.specs.Shape.{shape, shapes, leaf_shape};

use ms_extent::{
    and_or_arm, hash_arms, leaf_arms, list_opcodes, number_bytes, opcodes, pair_arms, wrapper_arms,
};
use ms_hash::hash160;
use ms_script::{Blob, Op, Script, encode};
use ms_tree::{HashValue, Key, Leaf, Tree, Two, View, Wrapper, fragment_rows};
use std::alloc::{AllocError, Global};

/// The Script of a tree (BIP 379, translation table).
pub fn emit(alloc: Global, tree: &Tree<'_>) -> Result<Script, AllocError>
    requires { IsInRange (shape tree.now) }
    ensures script { IfOk result (λ script. script ≡ the_emit (shape tree.now)) }
    ensures encodable { IfOk result (All IsShort) }
{
    let mut script = Script::new(alloc);
    add_tree(&mut script, tree)?;
    Ok(script)
}

/// The bytes of a tree's Script, for every tree in range. `AllocError` comes only where memory is wanting.
pub fn script_bytes(alloc: Global, tree: &Tree<'_>) -> Result<Blob, AllocError>
    requires { IsInRange (shape tree.now) }
    ensures { IfOk result (λ script. script ≡ script_of (shape tree.now)) }
{
    encode(alloc, &emit(alloc, tree)?)
}

/// Adds the Script of a tree.
#[cycle(add_tree)]
fn add_tree(script: &mut Script, tree: &Tree<'_>) -> Result<(), AllocError>
    requires { IsInRange (shape tree.now) }
    ensures { OnOk result (script.new ≡ script.old ++ the_emit (shape tree.now)) }
{
    match tree.view() {
        View::Leaf(leaf) => add_leaf(script, leaf),
        View::AndOr(x, y, z) => add_and_or(script, x, y, z),
        View::Two(kind, x, z) => add_two(script, kind, x, z),
        View::Thresh(k, children) => add_thresh(script, k, children),
        View::Multi(k, keys) => add_multi(script, k, keys),
        View::Wrap(wrapper, x) => add_wrap(script, wrapper, x),
    }
}

/// A step that refuses for want of memory.
macro_rules! step {
    ($step:expr) => {
        $step?
    };
}

/// Adds the push of a key, or of its hash.
macro_rules! key_push {
    ($script:ident, key, $key:ident) => {
        $script.push($key.as_bytes())?;
    };
    ($script:ident, hash160, $key:ident) => {
        $script.push(&hash160($key.as_bytes()))?;
    };
}

fn add_leaf(script: &mut Script, leaf: Leaf) -> Result<(), AllocError>
    requires { IsInRange (leaf_shape leaf) }
    ensures { OnOk result (script.new ≡ script.old ++ the_emit (leaf_shape leaf)) }
{
    fragment_rows!(leaf_arms!(script, leaf));
    Ok(())
}

fn add_hash(script: &mut Script, value: &HashValue) -> Result<(), AllocError>
    ensures { OnOk result (script.new ≡ script.old ++ the_emit (tree.hash (kind_of value.now) (bytes_of value.now))) }
{
    fragment_rows!(hash_arms!(script, value));
    Ok(())
}

#[cycle(add_tree)]
fn add_and_or(
    script: &mut Script,
    x: &Tree<'_>,
    y: &Tree<'_>,
    z: &Tree<'_>,
) -> Result<(), AllocError>
    requires x { IsInRange (shape x.now) }
    requires y { IsInRange (shape y.now) }
    requires z { IsInRange (shape z.now) }
    ensures { OnOk result (script.new ≡ script.old ++ the_emit (tree.and_or (shape x.now) (shape y.now) (shape z.now))) }
{
    fragment_rows!(and_or_arm!(script, x, y, z));
    Ok(())
}

#[cycle(add_tree)]
fn add_two(script: &mut Script, kind: Two, x: &Tree<'_>, z: &Tree<'_>) -> Result<(), AllocError>
    requires x { IsInRange (shape x.now) }
    requires z { IsInRange (shape z.now) }
    ensures { OnOk result (script.new ≡ script.old ++ the_emit (tree.two kind (shape x.now) (shape z.now))) }
{
    fragment_rows!(pair_arms!(script, kind, x, z));
    Ok(())
}

/// The first child, each further one with ADD behind it, the number and EQUAL.
#[cycle(add_tree)]
fn add_thresh(script: &mut Script, k: u64, children: &[Tree<'_>]) -> Result<(), AllocError>
    requires k { k < TEN_DIGITS }
    requires children { All (λ x. IsInRange (shape x)) children.now }
    ensures { OnOk result (script.new ≡ script.old ++ the_emit (tree.thresh k (shapes children.now))) }
{
    if let Some((first, others)) = children.split_first() {
        add_tree(script, first)?;
        add_others(script, others)?;
    }
    push_number(script, k)?;
    fragment_rows!(list_opcodes!(script, thresh));
    Ok(())
}

#[cycle(add_tree)]
fn add_others(script: &mut Script, children: &[Tree<'_>]) -> Result<(), AllocError>
    requires { All (λ x. IsInRange (shape x)) children.now }
    ensures { OnOk result (script.new ≡ script.old ++ the_added (shapes children.now)) }
{
    for child in children {
        add_tree(script, child)?;
        fragment_rows!(list_opcodes!(script, further child));
    }
    Ok(())
}

/// The number of signatures, the keys, their number and CHECKMULTISIG.
fn add_multi(script: &mut Script, k: u64, keys: &[Key]) -> Result<(), AllocError>
    requires k { k < TEN_DIGITS }
    requires keys { length keys.now < MOST_MEASURE }
    ensures { OnOk result (script.new ≡ script.old ++ the_emit (tree.multi k keys.now)) }
{
    push_number(script, k)?;
    for key in keys {
        script.push(key.as_bytes())?;
    }
    push_number(script, keys.len() as u64)?;
    fragment_rows!(list_opcodes!(script, multi));
    Ok(())
}

#[cycle(add_tree)]
#[tactic(auto, using(crate::proofs::Verified::verify_behind))]
fn add_wrap(script: &mut Script, wrapper: Wrapper, x: &Tree<'_>) -> Result<(), AllocError>
    requires { IsInRange (shape x.now) }
    ensures { OnOk result (script.new ≡ script.old ++ the_emit (tree.wrap wrapper (shape x.now))) }
{
    fragment_rows!(wrapper_arms!(script, wrapper, x));
    Ok(())
}

/// Adds the push of a number in its shortest form.
fn push_number(script: &mut Script, number: u64) -> Result<(), AllocError>
    requires { number < TEN_DIGITS }
    ensures { OnOk result (script.new ≡ script.old ++ the_number number ∷ []) }
{
    script.push(number_bytes(number).as_slice())
}
