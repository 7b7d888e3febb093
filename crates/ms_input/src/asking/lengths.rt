//! The lengths of the signatures of a tree's keys.

ghost use Rattle.std.specs.Prelude.{◌≡◌, ◌++◌, map, IfOk, OnOk, All};
ghost use Rattle.def_tree.specs.InRange.{IsInRange};
ghost use Rattle.def_sane.specs.Keys.{keys as the_keys, keys_of_all};
ghost use Rattle.def_spend.specs.Asking.{lengths_of as the_lengths_of};
ghost use Rattle.ms_input.specs.Scaffolding.Lengths.{entry_of as the_entry_of};
ghost use Rattle.ms_tree.specs.Shape.{shape, shapes, leaf_shape};

use ms_bytes::MAX_SIGNATURE_SIZE;
use ms_held::Assets;
use ms_plan::{KeyLength, KeyLengths};
use ms_tree::{Key, Leaf, Tree, View};
use std::alloc::{AllocError, Global};

/// For each key of a tree the length of the signature that it has, and 73 bytes where it has none. Refuses for want of memory
/// alone.
pub fn lengths_of(alloc: Global, tree: &Tree<'_>, assets: &Assets) -> Result<KeyLengths, AllocError>
    requires { IsInRange (shape tree.now) }
    ensures { IfOk result (λ lengths. lengths ≡ the_lengths_of (shape tree.now) assets.now) }
{
    let mut entries = Vec::new(alloc);
    push_lengths(tree, assets, &mut entries)?;
    Ok(KeyLengths::from_vec(entries))
}

/// Adds the keys of a tree with their lengths, in the order of its nodes and, in a `multi`, of its positions.
#[cycle(push_lengths)]
fn push_lengths(
    tree: &Tree<'_>,
    assets: &Assets,
    entries: &mut Vec<KeyLength>,
) -> Result<(), AllocError>
    requires { IsInRange (shape tree.now) }
    ensures { OnOk result (entries.new.items ≡ entries.old.items ++ map (the_entry_of assets.now) (the_keys (shape tree.now))) }
{
    match tree.view() {
        View::Leaf(leaf) => push_leaf(leaf, assets, entries),
        View::AndOr(x, y, z) => {
            push_lengths(x, assets, entries)?;
            push_lengths(y, assets, entries)?;
            push_lengths(z, assets, entries)
        }
        View::Two(_, x, z) => {
            push_lengths(x, assets, entries)?;
            push_lengths(z, assets, entries)
        }
        View::Thresh(_, children) => push_lengths_of_all(children, assets, entries),
        View::Multi(_, own) => push_own(own, assets, entries),
        View::Wrap(_, x) => push_lengths(x, assets, entries),
    }
}

#[cycle(push_lengths)]
fn push_lengths_of_all(
    children: &[Tree<'_>],
    assets: &Assets,
    entries: &mut Vec<KeyLength>,
) -> Result<(), AllocError>
    requires { All (λ x. IsInRange (shape x)) children.now }
    ensures { OnOk result (entries.new.items ≡ entries.old.items ++ map (the_entry_of assets.now) (keys_of_all (shapes children.now))) }
{
    for child in children {
        push_lengths(child, assets, entries)?;
    }
    Ok(())
}

fn push_leaf(leaf: Leaf, assets: &Assets, entries: &mut Vec<KeyLength>) -> Result<(), AllocError>
    ensures { OnOk result (entries.new.items ≡ entries.old.items ++ map (the_entry_of assets.now) (the_keys (leaf_shape leaf))) }
{
    match leaf {
        Leaf::PkK(key) | Leaf::PkH(key) => push_own(&[key], assets, entries),
        Leaf::Zero | Leaf::One | Leaf::Older(_) | Leaf::After(_) | Leaf::Hash(_) => Ok(()),
    }
}

/// Adds these keys with their lengths.
fn push_own(own: &[Key], assets: &Assets, entries: &mut Vec<KeyLength>) -> Result<(), AllocError>
    ensures { OnOk result (entries.new.items ≡ entries.old.items ++ map (the_entry_of assets.now) own.now) }
{
    for key in own {
        entries.push(entry_of(assets, *key))?;
    }
    Ok(())
}

/// A key with its length.
fn entry_of(assets: &Assets, key: Key) -> KeyLength
    ensures { result ≡ the_entry_of assets.now key }
{
    assets.are_assets();
    let length = match assets.sig_of(&key) {
        Some(sig) => sig.len() as u8,
        None => MAX_SIGNATURE_SIZE as u8,
    };
    KeyLength { key, length }
}
