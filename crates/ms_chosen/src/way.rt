//! The ways to satisfy and to dissatisfy the fragments with children, where it is known what was weighed of these.
ghost use Rattle.std.specs.Prelude.{◌≡◌, ◌&&◌, ◌+◌, ◌≤◌, ◌++◌, List, length, true, None, Some, IfSome};
ghost use Rattle.def_tree.specs.InRange.{IsInRange};
ghost use Rattle.def_tree.specs.Tree as tree;
ghost use Rattle.def_tree.specs.Tree.{Tree as Model};
ghost use Rattle.def_assets.specs.Assets.{Assets as Held};
ghost use Rattle.def_choice.specs.declared.choice.Choice.{Choice as Rule};
ghost use Rattle.def_tree.specs.Nodes.{all_nodes};
ghost use Rattle.ms_tree.specs.Shape.{shape};
ghost use Rattle.ms_chosen.specs.Scaffolding.Costs.{sum_of, weight_of};
ghost use Rattle.ms_choice.specs.Numbers.{IsLight, IsLightOption};
ghost use Rattle.ms_chosen.specs.Scaffolding.Table.{IsWeighed, AreEntries, EndsWith, below};
ghost use Rattle.ms_chosen.specs.Scaffolding.Way.{tree_of, stack_of_part, free_of_part, stack_of_way, free_of_way, sat_of, dsat_of, is_free, nodes_of_way, nodes_of_ways, IsSeen, IsSeenRow, IsRowOf, SeesTwo, IsSeenPart, IsSeenWay, AreSeen, HasTable, HaveTables, IsPriceOf, comes_first, Satisfies, Dissatisfies};

use crate::cost::{both, is_former};
use crate::table::{Entry, Weighed};
use crate::weigh::of_item;
use ms_rows::{Part, Row, Way, Ways, and_or, two, wrap};
use ms_tree::{Tree, Two, Wrapper};

/// A tree, and what was weighed of its nodes, in the order of their numbers.
#[derive(Clone, Copy)]
pub struct Seen<'t> {
    /// The tree.
    pub tree: &'t Tree<'t>,
    /// The entries of its nodes and of no others, its own the last one.
    pub table: &'t [Entry],
}

impl<'t> Seen<'t> {
    /// What was weighed of the tree itself.
    pub fn weighed(&self) -> &'t Weighed
        requires { HasTable self.now }
        ensures weighed { (rule : Rule) (assets : Held) → IsSeen rule assets self.now → IsWeighed rule assets (tree_of self.now) result.now }
        ensures light { IsLight result.now.costs }
    {
        &self.table[self.table.len() - 1].weighed
    }

    /// The entries of the nodes below the tree's root.
    pub fn below(&self) -> &'t [Entry]
        requires { HasTable self.now }
        ensures { (rule : Rule) (assets : Held) → IsSeen rule assets self.now → AreEntries rule assets (below (tree_of self.now)) result.now }
    {
        &self.table[..self.table.len() - 1]
    }
}

/// The last one of the trees in a row whose entries these are, and the entries before its own.
pub fn see_last<'t>(tree: &'t Tree<'t>, table: &'t [Entry]) -> (&'t [Entry], Seen<'t>)
    requires in_range { IsInRange (shape tree.now) }
    requires table { EndsWith (shape tree.now) table.now }
    ensures tree { tree_of result.1 ≡ shape tree.entry.now }
    ensures before { (rule : Rule) (assets : Held) (ts : List Model) → AreEntries rule assets (ts ++ all_nodes (shape tree.entry.now)) table.entry.now → AreEntries rule assets ts result.0.now }
    ensures seen { (rule : Rule) (assets : Held) (ts : List Model) → AreEntries rule assets (ts ++ all_nodes (shape tree.entry.now)) table.entry.now → IsSeen rule assets result.1 }
{
    let nodes = table[table.len() - 1].nodes;
    let (before, own) = table.split_at(table.len() - nodes);
    (before, Seen { tree, table: own })
}

/// Two trees in a row.
pub fn see_two<'t>(x: &'t Tree<'t>, z: &'t Tree<'t>, table: &'t [Entry]) -> (Seen<'t>, Seen<'t>)
    requires x { IsInRange (shape x.now) }
    requires z { IsInRange (shape z.now) }
    requires table { (rule : Rule) × (assets : Held) × AreEntries rule assets (all_nodes (shape x.now) ++ all_nodes (shape z.now)) table.now }
    ensures x { tree_of result.0 ≡ shape x.entry.now }
    ensures z { tree_of result.1 ≡ shape z.entry.now }
    ensures seen { SeesTwo (all_nodes (shape x.entry.now) ++ all_nodes (shape z.entry.now)) table.entry.now result.0 result.1 }
{
    let (before, z) = see_last(z, table);
    let (_, x) = see_last(x, before);
    (x, z)
}

/// What a part weighs, and whether it needs no signature.
fn price_of_part(part: &Part<Seen<'_>>) -> Price
    requires { (rule : Rule) × (assets : Held) × IsSeenPart rule assets part.now }
    ensures price { (rule : Rule) (assets : Held) → IsSeenPart rule assets part.now → IsPriceOf (stack_of_part rule assets part.now) (free_of_part rule assets part.now) result }
    ensures light { IsLightOption result.weight }
{
    match part {
        Part::Sat(x) => {
            let x = x.weighed();
            Price {
                weight: x.costs.sat,
                free: x.free,
            }
        }
        Part::Dsat(x) => {
            let weight = x.weighed().costs.dsat;
            Price {
                weight,
                free: weight.is_some(),
            }
        }
        Part::One => Price::of_item(&[1]),
        Part::Empty => Price::of_item(&[]),
    }
}

/// What the parts of a way weigh together, and whether none needs a signature.
fn price_of_way(way: &Way<Seen<'_>>) -> Price
    requires { (rule : Rule) × (assets : Held) × IsSeenWay rule assets way.now }
    ensures { (rule : Rule) (assets : Held) → IsSeenWay rule assets way.now → IsPriceOf (stack_of_way rule assets way.now) (free_of_way rule assets way.now) result }
{
    match way {
        Way::Alone(part) => price_of_part(part),
        Way::Both(below, above) => price_of_part(below).with(&price_of_part(above)),
    }
}

/// The way that satisfies: one that needs no signature, the former first, or else the lighter one.
pub fn satisfying<'t>(ways: &Ways<Seen<'t>>) -> Option<Way<Seen<'t>>>
    requires { HaveTables ways.now }
    ensures none { result ≡ None → ways.now ≡ Ways.Never }
    ensures way { IfSome result (λ way. (rule : Rule) (assets : Held) → AreSeen rule assets ways.now → Satisfies rule assets ways.now way) }
    ensures fewer { IfSome result (λ way. nodes_of_way way ≤ nodes_of_ways ways.now) }
{
    match ways {
        Ways::Never => None,
        Ways::Only(way) => Some(*way),
        Ways::Either(former, latter) => {
            if price_of_way(former).comes_first(&price_of_way(latter)) {
                Some(*former)
            } else {
                Some(*latter)
            }
        }
    }
}

/// What is paid for the way that satisfies.
pub fn price_of_sat(ways: &Ways<Seen<'_>>) -> Price
    requires { HaveTables ways.now }
    ensures { (rule : Rule) (assets : Held) → AreSeen rule assets ways.now → (result.weight ≡ weight_of (sat_of rule assets ways.now)) × (result.free ≡ is_free rule assets ways.now) }
{
    match satisfying(ways) {
        Some(way) => price_of_way(&way),
        None => Price {
            weight: None,
            free: false,
        },
    }
}

/// What is paid for the way that dissatisfies.
pub fn price_of_dsat(ways: &Ways<Seen<'_>>) -> Option<u64>
    requires { HaveTables ways.now }
    ensures { (rule : Rule) (assets : Held) → AreSeen rule assets ways.now → result ≡ weight_of (dsat_of rule assets ways.now) }
{
    match dissatisfying(ways) {
        Some(way) => price_of_way(&way).weight,
        None => None,
    }
}

/// The way that dissatisfies: the lighter one.
pub fn dissatisfying<'t>(ways: &Ways<Seen<'t>>) -> Option<Way<Seen<'t>>>
    requires { HaveTables ways.now }
    ensures none { result ≡ None → ways.now ≡ Ways.Never }
    ensures way { IfSome result (λ way. (rule : Rule) (assets : Held) → AreSeen rule assets ways.now → Dissatisfies rule assets ways.now way) }
    ensures fewer { IfSome result (λ way. nodes_of_way way ≤ nodes_of_ways ways.now) }
{
    match ways {
        Ways::Never => None,
        Ways::Only(way) => Some(*way),
        Ways::Either(former, latter) => {
            if is_former(price_of_way(former).weight, price_of_way(latter).weight) {
                Some(*former)
            } else {
                Some(*latter)
            }
        }
    }
}

/// What a way weighs, where it has a stack, and whether it has one that needs no signature.
#[derive(Clone, Copy)]
pub struct Price {
    /// The weight in a witness, in bytes; `None` where there is no stack.
    pub weight: Option<u64>,
    /// The rule asks for a stack that needs no signature, and there is one.
    pub free: bool,
}

impl Price {
    fn of_item(item: &[u8]) -> Price
        ensures weight { result.weight ≡ Some (1 + length item.now) }
        ensures free { result.free ≡ true }
    {
        Price {
            weight: Some(of_item(item)),
            free: true,
        }
    }

    /// With the price of what lies on top.
    fn with(&self, above: &Price) -> Price
        requires below { IsLightOption self.now.weight }
        requires above { IsLightOption above.now.weight }
        ensures weight { result.weight ≡ sum_of self.now.weight above.now.weight }
        ensures free { result.free ≡ (self.now.free && above.now.free) }
    {
        Price {
            weight: both(self.weight, above.weight),
            free: self.free && above.free,
        }
    }

    /// Whether this way is taken, and not the latter one.
    fn comes_first(&self, latter: &Price) -> bool
        ensures { result ≡ comes_first self.now latter.now }
    {
        self.free || (!latter.free && is_former(self.weight, latter.weight))
    }
}

/// The ways of an `andor`.
pub fn row_of_and_or<'t>(x: Seen<'t>, y: Seen<'t>, z: Seen<'t>) -> Row<Seen<'t>>
    ensures row { IsRowOf (tree.and_or (tree_of x.entry) (tree_of y.entry) (tree_of z.entry)) result }
    ensures seen { (rule : Rule) (assets : Held) → IsSeen rule assets x.entry → IsSeen rule assets y.entry → IsSeen rule assets z.entry → IsSeenRow rule assets result }
{
    and_or(x, y, z)
}

/// The ways of a fragment of two parts.
pub fn row_of_two<'t>(kind: Two, x: Seen<'t>, z: Seen<'t>) -> Row<Seen<'t>>
    ensures row { IsRowOf (tree.two kind (tree_of x.entry) (tree_of z.entry)) result }
    ensures seen { (rule : Rule) (assets : Held) → IsSeen rule assets x.entry → IsSeen rule assets z.entry → IsSeenRow rule assets result }
{
    two(kind, x, z)
}

/// The ways of a fragment behind a wrapper.
pub fn row_of_wrap<'t>(wrapper: Wrapper, x: Seen<'t>) -> Row<Seen<'t>>
    ensures row { IsRowOf (tree.wrap wrapper (tree_of x.entry)) result }
    ensures seen { (rule : Rule) (assets : Held) → IsSeen rule assets x.entry → IsSeenRow rule assets result }
{
    wrap(wrapper, x)
}
