//! Signatures of estimated lengths that are told from all other items of a stack: a satisfaction with one kind of marks
//! and one with the other differ in their signatures alone, since only the lengths of signatures decide the choice.
ghost use Rattle.std.specs.Prelude.{◌≡◌, ◌≤◌, ◌++◌, [], ◌∷◌, length, filter, replicate, IfOk, OnOk, All};
ghost use Rattle.std.specs.List.{list_any};
ghost use Rattle.std.specs.Str.{bytes_eq};
ghost use Rattle.def_script.specs.Signature.{MAX_SIGNATURE_SIZE as the_max_signature_size};
ghost use Rattle.def_tree.specs.InRange.{IsInRange};
ghost use Rattle.def_sane.specs.Keys.{keys as the_keys, keys_of_all};
ghost use Rattle.def_plan.specs.Lengths.{AreLengths};
ghost use Rattle.ms_tree.specs.Shape.{shape, shapes, leaf_shape};
ghost use Rattle.ms_plan.specs.Scaffolding.Marks.{mark_of, marked, differing as the_differing, signs as the_signs};

use ms_bytes::{MAX_SIGNATURE_SIZE, Stack};
use ms_held::Assets;
use ms_oracle::Pairs;
use ms_plan_file::KeyLength;
use ms_tree::{Key, Leaf, Tree, View};
use std::alloc::{AllocError, Global};

/// Two kinds of marks. Each gives every entry of a table a byte of its own, and no entry the byte of the other kind.
#[derive(Clone, Copy, Debug, PartialEq, Eq)]
pub enum Marks {
    /// The entry's place.
    Rising,
    /// 255 less the entry's place.
    Falling,
}

impl Marks {
    /// The mark of an entry.
    fn of(self, place: u8) -> u8
        ensures { result ≡ mark_of self place }
    {
        match self {
            Marks::Rising => place,
            Marks::Falling => 255 - place,
        }
    }
}

/// For each entry its key with a signature of its length, all of whose bytes are its mark. Refuses for want of memory alone.
pub fn marked_pairs(alloc: Global, marks: Marks, table: &[KeyLength]) -> Result<Pairs, AllocError>
    requires { AreLengths table.now }
    ensures { IfOk result (λ pairs. pairs ≡ marked marks 0 table.now) }
{
    let mut pairs = Pairs::new(alloc);
    for (place, entry) in table.iter().enumerate() {
        push_marked(&mut pairs, entry, marks.of(place as u8))?;
    }
    Ok(pairs)
}

/// Adds the key of an entry with a signature of its length, all of whose bytes are this one.
fn push_marked(pairs: &mut Pairs, entry: &KeyLength, mark: u8) -> Result<(), AllocError>
    requires { entry.now.1 ≤ the_max_signature_size }
    ensures { OnOk result (pairs.new ≡ pairs.old ++ (entry.now.0, replicate entry.now.1 mark) ∷ []) }
{
    let signature = [mark; MAX_SIGNATURE_SIZE];
    pairs.push(entry.key.as_bytes(), &signature[..entry.length as usize])?;
    Ok(())
}

/// The items of a stack in whose places another one, of as many items, has other items.
pub fn differing(alloc: Global, stack: &Stack, other: &Stack) -> Result<Stack, AllocError>
    requires { length stack.now ≤ length other.now }
    ensures { IfOk result (λ items. items ≡ the_differing stack.now other.now) }
{
    let mut items = Stack::new(alloc);
    for place in 0..stack.len() {
        if stack.item(place) != other.item(place) {
            items.push(stack.item(place))?;
        }
    }
    Ok(items)
}

/// Whether the signature that is held with a key is among these.
fn signs(key: &Key, assets: &Assets, signatures: &Stack) -> bool
    ensures { result ≡ the_signs assets.now signatures.now key.now }
{
    match assets.sig_of(key) {
        Some(sig) => holds(signatures, sig),
        None => false,
    }
}

fn holds(items: &Stack, sig: &[u8]) -> bool
    ensures { result ≡ list_any (λ item. bytes_eq item sig.now) items.now }
{
    for place in 0..items.len() {
        if items.item(place) == sig {
            return true;
        }
    }
    false
}

/// Adds the keys of a tree whose signatures are among these, in the order of its nodes and, in a `multi`, of its positions.
#[cycle(push_signers)]
pub fn push_signers(
    tree: &Tree<'_>,
    assets: &Assets,
    signatures: &Stack,
    keys: &mut Vec<Key>,
) -> Result<(), AllocError>
    requires { IsInRange (shape tree.now) }
    ensures { OnOk result (keys.new.items ≡ keys.old.items ++ filter (the_signs assets.now signatures.now) (the_keys (shape tree.now))) }
{
    match tree.view() {
        View::Leaf(leaf) => push_leaf(leaf, assets, signatures, keys),
        View::AndOr(x, y, z) => {
            push_signers(x, assets, signatures, keys)?;
            push_signers(y, assets, signatures, keys)?;
            push_signers(z, assets, signatures, keys)
        }
        View::Two(_, x, z) => {
            push_signers(x, assets, signatures, keys)?;
            push_signers(z, assets, signatures, keys)
        }
        View::Thresh(_, children) => push_signers_of_all(children, assets, signatures, keys),
        View::Multi(_, own) => push_own(own, assets, signatures, keys),
        View::Wrap(_, x) => push_signers(x, assets, signatures, keys),
    }
}

#[cycle(push_signers)]
fn push_signers_of_all(
    children: &[Tree<'_>],
    assets: &Assets,
    signatures: &Stack,
    keys: &mut Vec<Key>,
) -> Result<(), AllocError>
    requires { All (λ x. IsInRange (shape x)) children.now }
    ensures { OnOk result (keys.new.items ≡ keys.old.items ++ filter (the_signs assets.now signatures.now) (keys_of_all (shapes children.now))) }
{
    for child in children {
        push_signers(child, assets, signatures, keys)?;
    }
    Ok(())
}

fn push_leaf(
    leaf: Leaf,
    assets: &Assets,
    signatures: &Stack,
    keys: &mut Vec<Key>,
) -> Result<(), AllocError>
    ensures { OnOk result (keys.new.items ≡ keys.old.items ++ filter (the_signs assets.now signatures.now) (the_keys (leaf_shape leaf))) }
{
    match leaf {
        Leaf::PkK(key) | Leaf::PkH(key) => push_own(&[key], assets, signatures, keys),
        Leaf::Zero | Leaf::One | Leaf::Older(_) | Leaf::After(_) | Leaf::Hash(_) => Ok(()),
    }
}

/// Adds those of these keys whose signatures are among these.
fn push_own(
    own: &[Key],
    assets: &Assets,
    signatures: &Stack,
    keys: &mut Vec<Key>,
) -> Result<(), AllocError>
    ensures { OnOk result (keys.new.items ≡ keys.old.items ++ filter (the_signs assets.now signatures.now) own.now) }
{
    for key in own {
        if signs(key, assets, signatures) {
            keys.push(*key)?;
        }
    }
    Ok(())
}
