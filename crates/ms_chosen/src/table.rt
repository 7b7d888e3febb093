//! What is weighed of a tree: of each of its nodes once, and kept in a table in the order of their numbers.
ghost use Rattle.std.specs.Prelude.{◌≡◌, ◌+◌, ◌≤◌, ◌<◌, ◌++◌, [], List, length, if◌then◌else◌, None, IfOk, OnOk};
ghost use Rattle.def_tree.specs.InRange.{MOST_MEASURE, IsInRange};
ghost use Rattle.def_tree.specs.Tree as tree;
ghost use Rattle.def_tree.specs.Tree.{Tree as Model};
ghost use Rattle.def_types.specs.Typed.{IsTyped};
ghost use Rattle.def_assets.specs.Assets.{AreAssets, Assets as Held};
ghost use Rattle.def_tree.specs.Nodes.{all_nodes, nodes_of_all};
ghost use Rattle.ms_tree.specs.Shape.{shape, shapes, trees_of, leaf_shape};
ghost use Rattle.def_choice.specs.declared.choice.Choice.{Choice as By};
ghost use Rattle.ms_chosen.specs.Scaffolding.Costs.{sum_of};
ghost use Rattle.ms_choice.specs.Numbers.{IsLight, IsLightOption};
ghost use Rattle.ms_work.specs.Scaffolding.Ready.{IsReady, AreReady};
ghost use Rattle.ms_chosen.specs.Rule.{has_key};
ghost use Rattle.ms_choice.specs.declared.slot.Slot.{Slot};
ghost use Rattle.ms_chosen.specs.Scaffolding.Table.{IsWeighed, AreEntries, Chooses, Weighs, Adds, below};
ghost use Rattle.ms_chosen.specs.Scaffolding.Way.{IsRowOf, IsSeenRow};
ghost use Rattle.ms_chosen.specs.Scaffolding.Count.{IsBounded, AreFew, AreTold, CountsIn};

use crate::way::{
    Seen, price_of_dsat, price_of_sat, row_of_and_or, row_of_two, row_of_wrap, see_last, see_two,
};
use crate::weigh::{of_leaf, of_multi, weight_of_choice};
use def_choice::Choice as Rule;
use ms_choice::{Choice, Costs, KindCounts, Slot, Tally};
use ms_held::Assets;
use ms_rows::Row;
use ms_tree::{Key, Leaf, Tree, Two, View, Wrapper};
use std::alloc::AllocError;

/// What was weighed of a node: its satisfaction by a rule, and its dissatisfaction.
#[derive(Clone, Copy)]
pub struct Weighed {
    /// The weights of both, in bytes of a witness.
    pub costs: Costs,
    /// The rule asks for a satisfaction without a signature, and there is one.
    pub free: bool,
    /// Which children of a threshold, and which keys of a `multi`, are satisfied.
    pub choice: Option<Choice>,
}

/// What was weighed of a node, and how many nodes it and the trees below it have.
#[derive(Clone, Copy)]
pub struct Entry {
    /// What was weighed of the node.
    pub weighed: Weighed,
    /// How many nodes it and the trees below it have, from 1.
    pub nodes: usize,
}

impl Weighed {
    /// As a child of a threshold: one that has a satisfaction without a signature isn't dissatisfied.
    pub fn as_child(&self) -> Costs
        ensures sat { result.sat ≡ self.now.costs.sat }
        ensures dsat { result.dsat ≡ (if self.now.free then None else self.now.costs.dsat) }
    {
        Costs {
            sat: self.costs.sat,
            dsat: if self.free { None } else { self.costs.dsat },
        }
    }
}

/// Children of a threshold, counted in one after the other: for the choice of those that are satisfied, for whether
/// a choice needs no signature, and the weight of their dissatisfactions.
#[derive(Drop)]
pub struct Children {
    /// The children, for the choice by weight.
    pub tally: Tally,
    /// The children, by whether their satisfaction needs no signature.
    pub free: KindCounts,
    /// The weight of all dissatisfactions; `None` where a child has none.
    pub dsat: Option<u64>,
}

impl Children {
    fn none() -> Children
        ensures few { (slots : List Slot) → AreFew result slots }
        ensures told { (rule : By) (assets : Held) (slots : List Slot) → AreTold rule assets [] result slots }
        ensures free { result.tally.free ≡ 0 }
        ensures place { result.tally.place ≡ 0 }
    {
        Children {
            tally: Tally::new(),
            free: KindCounts::NONE,
            dsat: Some(0),
        }
    }

    /// Counts a further child in.
    fn add(&mut self, slots: &mut [Slot], child: &Weighed)
        requires few { AreFew self.old slots.old }
        requires room { self.old.tally.free < length slots.old }
        requires place { self.old.tally.place < MOST_MEASURE }
        requires light { IsLight child.now.costs }
        ensures few { AreFew self.new slots.new }
        ensures told { CountsIn self.old slots.old child.now self.new slots.new }
        ensures free { self.new.tally.free ≤ self.old.tally.free + 1 }
        ensures place { self.new.tally.place ≡ self.old.tally.place + 1 }
    {
        self.tally.add_costs(slots, &child.as_child());
        self.free.add(child.free, child.costs.dsat.is_some());
        self.dsat = with_others(self.dsat, child.costs.dsat);
    }

    /// The threshold of which so many of them are satisfied. It sorts the slots.
    fn weighed(&self, count: u64, slots: &mut [Slot]) -> Weighed
        requires few { AreFew self.now slots.old }
        requires told { (rule : By) × (assets : Held) × (ts : List Model) × AreTold rule assets ts self.now slots.old }
        requires some { 1 ≤ count }
        ensures { (rule : By) (assets : Held) (ts : List Model) → AreTold rule assets ts self.now slots.old → IsWeighed rule assets (tree.thresh count (trees_of ts)) result }
    {
        let choice = self.tally.lightest_of(count, slots);
        Weighed {
            costs: Costs {
                sat: weight_of_choice(&choice),
                dsat: self.dsat,
            },
            free: self.free.allows(count),
            choice,
        }
    }
}

/// The weight of a further dissatisfaction and of the others.
fn with_others(others: Option<u64>, dsat: Option<u64>) -> Option<u64>
    requires others { IsBounded MOST_MEASURE others }
    requires dsat { IsLightOption dsat }
    ensures { result ≡ sum_of others dsat }
{
    match (others, dsat) {
        (Some(others), Some(dsat)) => Some(others + dsat),
        _ => None,
    }
}

/// Weighs a tree by a rule, and adds what was weighed of each of its nodes to the table. Of the slots it writes at most
/// as many as the tree's measure.
#[cycle(weigh_nodes)]
pub fn weigh_nodes(
    tree: &Tree<'_>,
    rule: Rule,
    assets: &Assets,
    slots: &mut [Slot],
    table: &mut Vec<Entry>,
) -> Result<Weighed, AllocError>
    requires ready { IsReady (shape tree.now) (length slots.old) }
    requires are { AreAssets assets.now }
    ensures weighed { IfOk result (IsWeighed rule assets.now (shape tree.now)) }
    ensures light { IfOk result (λ weighed. IsLight weighed.costs) }
    ensures added { OnOk result (Adds rule assets.now (all_nodes (shape tree.now)) table.old.items table.new.items) }
{
    let start = table.len();
    let weighed = weigh_root(tree, rule, assets, slots, table)?;
    let nodes = table.len() - start + 1;
    table.push(Entry { weighed, nodes })?;
    Ok(weighed)
}

/// Weighs a tree, and adds the nodes below its root.
#[cycle(weigh_nodes)]
#[tactic(auto, using(ms_work::proofs::Enough::multi_enough))]
fn weigh_root(
    tree: &Tree<'_>,
    rule: Rule,
    assets: &Assets,
    slots: &mut [Slot],
    table: &mut Vec<Entry>,
) -> Result<Weighed, AllocError>
    requires ready { IsReady (shape tree.now) (length slots.old) }
    requires are { AreAssets assets.now }
    ensures weighed { IfOk result (IsWeighed rule assets.now (shape tree.now)) }
    ensures added { OnOk result (Adds rule assets.now (below (shape tree.now)) table.old.items table.new.items) }
{
    let start = table.len();
    match tree.view() {
        View::Leaf(leaf) => Ok(weigh_leaf(leaf, rule, assets)),
        View::AndOr(x, y, z) => {
            weigh_nodes(x, rule, assets, slots, table)?;
            weigh_nodes(y, rule, assets, slots, table)?;
            weigh_nodes(z, rule, assets, slots, table)?;
            Ok(weigh_and_or(x, y, z, &table[start..]))
        }
        View::Two(kind, x, z) => {
            weigh_nodes(x, rule, assets, slots, table)?;
            weigh_nodes(z, rule, assets, slots, table)?;
            Ok(weigh_two(kind, x, z, &table[start..]))
        }
        View::Thresh(k, children) => weigh_thresh(k, children, rule, assets, slots, table),
        View::Multi(k, keys) => Ok(weigh_multi(k, keys, assets, slots)),
        View::Wrap(wrapper, x) => {
            weigh_nodes(x, rule, assets, slots, table)?;
            Ok(weigh_wrap(wrapper, x, &table[start..]))
        }
    }
}

#[cycle(weigh_nodes)]
#[tactic(auto, using(ms_work::proofs::Children::room_behind))]
fn weigh_thresh(
    k: u64,
    children: &[Tree<'_>],
    rule: Rule,
    assets: &Assets,
    slots: &mut [Slot],
    table: &mut Vec<Entry>,
) -> Result<Weighed, AllocError>
    requires ready { AreReady children.now (length slots.old) }
    requires are { AreAssets assets.now }
    requires some { 1 ≤ k }
    ensures weighed { IfOk result (IsWeighed rule assets.now (tree.thresh k (shapes children.now))) }
    ensures added { OnOk result (Adds rule assets.now (nodes_of_all (shapes children.now)) table.old.items table.new.items) }
{
    let mut all = Children::none();
    for child in children {
        let weighed = weigh_nodes(child, rule, assets, &mut slots[all.tally.free..], table)?;
        all.add(slots, &weighed);
    }
    Ok(all.weighed(k, slots))
}

fn weigh_leaf(leaf: Leaf, rule: Rule, assets: &Assets) -> Weighed
    requires typed { IsTyped (leaf_shape leaf) }
    requires are { AreAssets assets.now }
    ensures { IsWeighed rule assets.now (leaf_shape leaf) result }
{
    let costs = of_leaf(leaf, assets);
    let free = match rule {
        Rule::Cheapest => false,
        Rule::Strict => costs.sat.is_some() && !needs_signature(&leaf),
    };
    Weighed {
        costs,
        free,
        choice: None,
    }
}

fn needs_signature(leaf: &Leaf) -> bool
    ensures { result ≡ has_key leaf.now }
{
    matches!(leaf, Leaf::PkK(_) | Leaf::PkH(_))
}

/// Of a key only its signature satisfies, so a `multi` has no free satisfaction.
fn weigh_multi(k: u64, keys: &[Key], assets: &Assets, slots: &mut [Slot]) -> Weighed
    requires some { 1 ≤ k }
    requires enough { k ≤ length keys.now }
    requires few { length keys.now ≤ MOST_MEASURE }
    requires are { AreAssets assets.now }
    requires room { length keys.now ≤ length slots.old }
    ensures { (rule : By) → IsWeighed rule assets.now (tree.multi k keys.now) result }
{
    let (costs, choice) = of_multi(k, keys, assets, slots);
    Weighed {
        costs,
        free: false,
        choice,
    }
}

/// The entries are those of the three parts, one behind the other.
fn weigh_and_or(x: &Tree<'_>, y: &Tree<'_>, z: &Tree<'_>, table: &[Entry]) -> Weighed
    requires x { IsInRange (shape x.now) }
    requires y { IsInRange (shape y.now) }
    requires z { IsInRange (shape z.now) }
    requires table { (rule : By) × (assets : Held) × AreEntries rule assets (all_nodes (shape x.now) ++ all_nodes (shape y.now) ++ all_nodes (shape z.now)) table.now }
    ensures { Weighs (all_nodes (shape x.now) ++ all_nodes (shape y.now) ++ all_nodes (shape z.now)) table.now (tree.and_or (shape x.now) (shape y.now) (shape z.now)) result }
{
    let (before, z) = see_last(z, table);
    let (x, y) = see_two(x, y, before);
    weigh_row(row_of_and_or(x, y, z))
}

fn weigh_two(kind: Two, x: &Tree<'_>, z: &Tree<'_>, table: &[Entry]) -> Weighed
    requires x { IsInRange (shape x.now) }
    requires z { IsInRange (shape z.now) }
    requires table { (rule : By) × (assets : Held) × AreEntries rule assets (all_nodes (shape x.now) ++ all_nodes (shape z.now)) table.now }
    ensures { Weighs (all_nodes (shape x.now) ++ all_nodes (shape z.now)) table.now (tree.two kind (shape x.now) (shape z.now)) result }
{
    let (x, z) = see_two(x, z, table);
    weigh_row(row_of_two(kind, x, z))
}

fn weigh_wrap(wrapper: Wrapper, x: &Tree<'_>, table: &[Entry]) -> Weighed
    requires x { IsInRange (shape x.now) }
    requires table { (rule : By) × (assets : Held) × AreEntries rule assets (all_nodes (shape x.now)) table.now }
    ensures { (rule : By) (assets : Held) → AreEntries rule assets (all_nodes (shape x.now)) table.now → IsWeighed rule assets (tree.wrap wrapper (shape x.now)) result }
{
    let x = Seen { tree: x, table };
    weigh_row(row_of_wrap(wrapper, x))
}

/// What is weighed of a fragment that has this row.
fn weigh_row(row: Row<Seen<'_>>) -> Weighed
    requires { (rule : By) × (assets : Held) × IsSeenRow rule assets row }
    ensures { (rule : By) (assets : Held) (t : Model) → IsRowOf t row.entry → IsSeenRow rule assets row.entry → Chooses rule assets t None → IsWeighed rule assets t result }
{
    let sat = price_of_sat(&row.sat);
    Weighed {
        costs: Costs {
            sat: sat.weight,
            dsat: price_of_dsat(&row.dsat),
        },
        free: sat.free,
        choice: None,
    }
}
