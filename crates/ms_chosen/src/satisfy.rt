//! The satisfaction that a rule chooses.
ghost use Rattle.std.specs.Prelude.{◌≡◌, ◌≤◌, ◌*◌, vec_len, length, replicate, All, reverse, Some, OnOk, IfOk};
ghost use Rattle.std.specs.Option.{option_map};
ghost use Rattle.def_tree.specs.InRange.{MOST_MEASURE, IsInRange, measure, measure_of};
ghost use Rattle.def_tree.specs.Tree as tree;
ghost use Rattle.def_tree.specs.Nodes.{nodes_of_all};
ghost use Rattle.def_sane.specs.declared.Rules.TheVariants.{Consensus};
ghost use Rattle.def_sane.specs.Unfit.{IsValidUnder};
ghost use Rattle.def_assets.specs.Assets.{AreAssets, sig_of, known};
ghost use Rattle.def_satisfaction.specs.Rows.{EMPTY};
ghost use Rattle.def_choice.specs.Least.{item};
ghost use Rattle.def_choice.specs.Cheapest.{cheapest_of, all_dissatisfied};
ghost use Rattle.def_choice.specs.Dissatisfaction.{dissatisfaction};
ghost use Rattle.ms_tree.specs.Shape.{shape, shapes, leaf_shape};
ghost use Rattle.ms_hash.specs.Value.{kind_of, bytes_of};
ghost use Rattle.def_choice.specs.declared.choice.Choice.{Choice as By};
ghost use Rattle.ms_chosen.specs.Scaffolding.Pushed.{IsPushed};
ghost use Rattle.ms_chosen.specs.Scaffolding.Pushing.{PushesChoice, PushesMulti, PushesSignatures};
ghost use Rattle.ms_chosen.specs.Rule.{stack_by};
ghost use Rattle.ms_chosen.specs.Scaffolding.Table.{AreEntries};
ghost use Rattle.ms_chosen.specs.Scaffolding.Way.{tree_of, stack_of_part, stack_of_way, IsSeen, IsSeenPart, IsSeenWay, AreSeen, sat_of, dsat_of};

use crate::table::{Entry, weigh_nodes};
use crate::way::{
    Seen, dissatisfying, row_of_and_or, row_of_two, row_of_wrap, satisfying, see_last, see_two,
};
use crate::weigh::{ZEROS, of_key};
use def_choice::Choice as Rule;
use ms_bytes::Stack;
use ms_choice::Choice;
use ms_hash::HashValue;
use ms_held::Assets;
use ms_rows::{Part, Way, Ways};
use ms_tree::{Key, Leaf, Tree, View};
use ms_work::Work;
use std::alloc::{AllocError, Global};

/// The canonical satisfaction of a tree with these assets that a rule chooses, in working room that is lent. `None` where there is none.
/// The tree is valid by the limits of consensus. Each node is weighed once, and what was weighed is kept until the stack is made.
pub fn satisfaction(
    alloc: Global,
    rule: Rule,
    tree: &Tree<'_>,
    assets: &Assets,
    work: &mut Work,
) -> Result<Option<Stack>, AllocError>
    requires in_range { IsInRange (shape tree.now) }
    requires valid { IsValidUnder Consensus (shape tree.now) }
    requires room { 4 * measure (shape tree.now) ≤ vec_len work.old.slots }
    ensures choice { IfOk result (λ found. found ≡ option_map reverse (stack_by rule assets.now (shape tree.now))) }
    ensures room { vec_len work.new.slots ≡ vec_len work.old.slots }
{
    assets.are_assets();
    let mut table = Vec::new(alloc);
    let weighed = weigh_nodes(tree, rule, assets, &mut work.slots, &mut table)?;
    if weighed.costs.sat.is_none() {
        return Ok(None);
    }
    let mut stack = Stack::new(alloc);
    let seen = Seen {
        tree,
        table: &table,
    };
    satisfy(seen, assets, &mut stack)?;
    Ok(Some(stack))
}

/// Pushes the satisfaction of a tree by the rule that it was weighed by, where it has one.
#[cycle(satisfy)]
fn satisfy(seen: Seen<'_>, assets: &Assets, stack: &mut Stack) -> Result<(), AllocError>
    requires { (rule : By) × IsSeen rule assets.now seen }
    ensures { OnOk result ((rule : By) → IsSeen rule assets.now seen.entry → IsPushed (stack_by rule assets.now (tree_of seen.entry)) stack.old stack.new) }
{
    let below = seen.below();
    match seen.tree.view() {
        View::Leaf(leaf) => satisfy_leaf(leaf, assets, stack),
        View::AndOr(x, y, z) => {
            let (before, z) = see_last(z, below);
            let (x, y) = see_two(x, y, before);
            push_satisfying(row_of_and_or(x, y, z).sat, assets, stack)
        }
        View::Two(kind, x, z) => {
            let (x, z) = see_two(x, z, below);
            push_satisfying(row_of_two(kind, x, z).sat, assets, stack)
        }
        View::Thresh(_, children) => {
            push_children(children, below, &seen.weighed().choice, assets, stack)
        }
        View::Multi(_, keys) => push_multi(keys, &seen.weighed().choice, assets, stack),
        View::Wrap(wrapper, x) => {
            let x = Seen {
                tree: x,
                table: below,
            };
            push_satisfying(row_of_wrap(wrapper, x).sat, assets, stack)
        }
    }
}

/// Pushes the dissatisfaction of a tree, where it has one.
#[cycle(satisfy)]
fn dissatisfy(seen: Seen<'_>, assets: &Assets, stack: &mut Stack) -> Result<(), AllocError>
    requires { (rule : By) × IsSeen rule assets.now seen }
    ensures { OnOk result (IsPushed (dissatisfaction (tree_of seen.entry)) stack.old stack.new) }
{
    let below = seen.below();
    match seen.tree.view() {
        View::Leaf(leaf) => dissatisfy_leaf(leaf, stack),
        View::AndOr(x, y, z) => {
            let (before, z) = see_last(z, below);
            let (x, y) = see_two(x, y, before);
            push_dissatisfying(row_of_and_or(x, y, z).dsat, assets, stack)
        }
        View::Two(kind, x, z) => {
            let (x, z) = see_two(x, z, below);
            push_dissatisfying(row_of_two(kind, x, z).dsat, assets, stack)
        }
        View::Thresh(_, children) => dissatisfy_all(children, below, assets, stack),
        View::Multi(k, _) => push_empty(k + 1, stack),
        View::Wrap(wrapper, x) => {
            let x = Seen {
                tree: x,
                table: below,
            };
            push_dissatisfying(row_of_wrap(wrapper, x).dsat, assets, stack)
        }
    }
}

#[cycle(satisfy)]
fn push_satisfying(
    ways: Ways<Seen<'_>>,
    assets: &Assets,
    stack: &mut Stack,
) -> Result<(), AllocError>
    requires { (rule : By) × AreSeen rule assets.now ways }
    ensures { OnOk result ((rule : By) → AreSeen rule assets.now ways.entry → IsPushed (sat_of rule assets.now ways.entry) stack.old stack.new) }
{
    match satisfying(&ways) {
        Some(way) => push_way(way, assets, stack),
        None => Ok(()),
    }
}

#[cycle(satisfy)]
fn push_dissatisfying(
    ways: Ways<Seen<'_>>,
    assets: &Assets,
    stack: &mut Stack,
) -> Result<(), AllocError>
    requires { (rule : By) × AreSeen rule assets.now ways }
    ensures { OnOk result ((rule : By) → AreSeen rule assets.now ways.entry → IsPushed (dsat_of rule assets.now ways.entry) stack.old stack.new) }
{
    match dissatisfying(&ways) {
        Some(way) => push_way(way, assets, stack),
        None => Ok(()),
    }
}

#[cycle(satisfy)]
fn push_way(way: Way<Seen<'_>>, assets: &Assets, stack: &mut Stack) -> Result<(), AllocError>
    requires { (rule : By) × IsSeenWay rule assets.now way }
    ensures { OnOk result ((rule : By) → IsSeenWay rule assets.now way.entry → IsPushed (stack_of_way rule assets.now way.entry) stack.old stack.new) }
{
    match way {
        Way::Alone(part) => push_part(part, assets, stack),
        Way::Both(below, above) => {
            push_part(below, assets, stack)?;
            push_part(above, assets, stack)
        }
    }
}

#[cycle(satisfy)]
fn push_part(part: Part<Seen<'_>>, assets: &Assets, stack: &mut Stack) -> Result<(), AllocError>
    requires { (rule : By) × IsSeenPart rule assets.now part }
    ensures { OnOk result ((rule : By) → IsSeenPart rule assets.now part.entry → IsPushed (stack_of_part rule assets.now part.entry) stack.old stack.new) }
{
    match part {
        Part::Sat(x) => satisfy(x, assets, stack),
        Part::Dsat(x) => dissatisfy(x, assets, stack),
        Part::One => stack.push(&[1]),
        Part::Empty => stack.push(&[]),
    }
}

/// Pushes the satisfactions of the children that a choice satisfies and the dissatisfactions of the
/// others, the first child's on top. The entries are those of all children, one behind the other.
#[cycle(satisfy)]
fn push_children(
    children: &[Tree<'_>],
    table: &[Entry],
    choice: &Option<Choice>,
    assets: &Assets,
    stack: &mut Stack,
) -> Result<(), AllocError>
    requires in_range { All (λ x. IsInRange (shape x)) children.now }
    requires few { measure_of (shapes children.now) ≤ MOST_MEASURE }
    requires table { (rule : By) × AreEntries rule assets.now (nodes_of_all (shapes children.now)) table.now }
    ensures { OnOk result (PushesChoice assets.now (shapes children.now) table.now choice.now stack.old stack.new) }
{
    let Some(choice) = choice else {
        return Ok(());
    };
    let mut before = table;
    for place in (0..children.len()).rev() {
        let (others, child) = see_last(&children[place], before);
        before = others;
        if choice.is_taken(&child.weighed().as_child(), place as u32) {
            satisfy(child, assets, stack)?;
        } else {
            dissatisfy(child, assets, stack)?;
        }
    }
    Ok(())
}

/// Pushes the dissatisfactions of all children, the first one's on top.
#[cycle(satisfy)]
fn dissatisfy_all(
    children: &[Tree<'_>],
    table: &[Entry],
    assets: &Assets,
    stack: &mut Stack,
) -> Result<(), AllocError>
    requires in_range { All (λ x. IsInRange (shape x)) children.now }
    requires table { (rule : By) × AreEntries rule assets.now (nodes_of_all (shapes children.now)) table.now }
    ensures { OnOk result (IsPushed (all_dissatisfied (shapes children.now)) stack.old stack.new) }
{
    let mut before = table;
    for place in (0..children.len()).rev() {
        let (others, child) = see_last(&children[place], before);
        before = others;
        dissatisfy(child, assets, stack)?;
    }
    Ok(())
}

/// Pushes the satisfaction of a leaf, where it has one.
fn satisfy_leaf(leaf: Leaf, assets: &Assets, stack: &mut Stack) -> Result<(), AllocError>
    ensures { OnOk result (IsPushed (cheapest_of assets.now (leaf_shape leaf)) stack.old stack.new) }
{
    match leaf {
        Leaf::Zero | Leaf::One | Leaf::Older(_) | Leaf::After(_) => Ok(()),
        Leaf::PkK(key) => push_signature(&key, assets, stack),
        Leaf::PkH(key) => {
            push_signature(&key, assets, stack)?;
            stack.push(key.as_bytes())
        }
        Leaf::Hash(value) => push_preimage(&value, assets, stack),
    }
}

/// Pushes the signature that is held with a key.
fn push_signature(key: &Key, assets: &Assets, stack: &mut Stack) -> Result<(), AllocError>
    ensures { OnOk result (IsPushed (item (sig_of assets.now key.now)) stack.old stack.new) }
{
    match assets.sig_of(key) {
        Some(sig) => stack.push(sig),
        None => Ok(()),
    }
}

/// Pushes the known preimage of a hash value.
fn push_preimage(value: &HashValue, assets: &Assets, stack: &mut Stack) -> Result<(), AllocError>
    ensures { OnOk result (IsPushed (item (known assets.now (kind_of value.now) (bytes_of value.now))) stack.old stack.new) }
{
    match assets.preimage_of(value) {
        Some(preimage) => stack.push(preimage),
        None => Ok(()),
    }
}

/// Pushes an empty item and the signatures of a `multi` that a choice takes, where there is one.
fn push_multi(
    keys: &[Key],
    choice: &Option<Choice>,
    assets: &Assets,
    stack: &mut Stack,
) -> Result<(), AllocError>
    requires { length keys.now ≤ MOST_MEASURE }
    ensures { OnOk result (PushesMulti assets.now keys.now choice.now stack.old stack.new) }
{
    assets.are_assets();
    match choice {
        Some(choice) => {
            stack.push(&[])?;
            push_signatures(keys, choice, assets, stack)
        }
        None => Ok(()),
    }
}

/// Pushes the signatures of the keys that a choice satisfies, the last key's on top.
fn push_signatures(
    keys: &[Key],
    choice: &Choice,
    assets: &Assets,
    stack: &mut Stack,
) -> Result<(), AllocError>
    requires few { length keys.now ≤ MOST_MEASURE }
    requires are { AreAssets assets.now }
    ensures { OnOk result (PushesSignatures assets.now keys.now choice.now stack.old stack.new) }
{
    for (place, key) in keys.iter().enumerate() {
        if choice.is_taken(&of_key(key, assets), place as u32) {
            push_signature(key, assets, stack)?;
        }
    }
    Ok(())
}

fn dissatisfy_leaf(leaf: Leaf, stack: &mut Stack) -> Result<(), AllocError>
    ensures { OnOk result (IsPushed (dissatisfaction (leaf_shape leaf)) stack.old stack.new) }
{
    match leaf {
        Leaf::Zero | Leaf::One | Leaf::Older(_) | Leaf::After(_) => Ok(()),
        Leaf::PkK(_) => stack.push(&[]),
        Leaf::PkH(key) => {
            stack.push(&[])?;
            stack.push(key.as_bytes())
        }
        Leaf::Hash(_) => stack.push(&ZEROS),
    }
}

/// Pushes so many empty items.
fn push_empty(count: u64, stack: &mut Stack) -> Result<(), AllocError>
    ensures { OnOk result (IsPushed (Some (replicate count EMPTY)) stack.old stack.new) }
{
    for _ in 0..count {
        stack.push(&[])?;
    }
    Ok(())
}
