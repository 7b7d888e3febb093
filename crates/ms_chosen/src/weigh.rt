//! The least weights of canonical satisfactions and dissatisfactions, without memory.
ghost use Rattle.std.specs.Prelude.{◌≡◌, ◌+◌, ◌*◌, ◌≤◌, vec_len, length, reverse, if◌then◌else◌, Some, None};
ghost use Rattle.std.specs.Option.{option_map};
ghost use Rattle.def_tree.specs.InRange.{MOST_MEASURE, IsInRange, measure};
ghost use Rattle.def_sane.specs.declared.Rules.TheVariants.{Consensus};
ghost use Rattle.def_sane.specs.Unfit.{IsValidUnder};
ghost use Rattle.def_tree.specs.Tree as tree;
ghost use Rattle.def_types.specs.Typed.{IsTyped};
ghost use Rattle.def_assets.specs.Assets.{AreAssets, sig_of, known};
ghost use Rattle.def_hash.specs.Hash.{digest_of};
ghost use Rattle.def_satisfaction.specs.Rows.{ZEROS as the_zeros};
ghost use Rattle.def_script.specs.Witness.{weight};
ghost use Rattle.def_choice.specs.Least.{item};
ghost use Rattle.def_choice.specs.Cheapest.{cheapest, cheapest_of};
ghost use Rattle.def_choice.specs.Dissatisfaction.{dissatisfaction};
ghost use Rattle.ms_hash.specs.Value.{kind_of, bytes_of};
ghost use Rattle.ms_tree.specs.Shape.{shape, shapes, leaf_shape};
ghost use Rattle.ms_chosen.specs.Scaffolding.Costs.{weight_of, costs_of, AreCosts};
ghost use Rattle.ms_work.specs.Scaffolding.Ready.{IsReady, AreReady};
ghost use Rattle.ms_choice.specs.Numbers.{number_in, IsLight};
ghost use Rattle.ms_chosen.specs.Scaffolding.Children.{children_of, children_of_keys, length_of_key, lengths_of_keys};
ghost use Rattle.ms_chosen.specs.Scaffolding.Table.{IsFound};
ghost use Rattle.ms_choice.specs.Tally.{Fits, Tells};
ghost use Rattle.ms_choice.specs.declared.children.Number.TheVariants.{First};
ghost use Rattle.std.specs.Str.{bytes_eq};

use crate::cost::both;
use crate::row::of_row;
use ms_choice::{Choice, Costs, Numbers, Slot, Tally};
use ms_hash::{HashValue, hash_of};
use ms_held::Assets;
use ms_rows::{Argument, and_or, two, wrap};
use ms_tree::{Key, Leaf, Tree, Two, View, Wrapper};
use ms_work::Work;

/// What stands for a preimage where a hash is dissatisfied.
pub const ZEROS: [u8; 32] = [0; 32];

/// The least weight of a canonical satisfaction of a tree with these assets, and of a canonical dissatisfaction, each
/// `None` where there is none, in working room that is lent. The tree is valid by the limits of consensus. Takes no memory.
pub fn least_costs(tree: &Tree<'_>, assets: &Assets, work: &mut Work) -> Costs
    requires in_range { IsInRange (shape tree.now) }
    requires valid { IsValidUnder Consensus (shape tree.now) }
    requires room { 4 * measure (shape tree.now) ≤ vec_len work.old.slots }
    ensures sat { result.sat ≡ option_map weight (cheapest (shape tree.now) assets.now) }
    ensures dsat { result.dsat ≡ option_map weight (option_map reverse (dissatisfaction (shape tree.now))) }
    ensures room { vec_len work.new.slots ≡ vec_len work.old.slots }
{
    assets.are_assets();
    weigh(tree, assets, &mut work.slots)
}

/// The least weights of a tree. Of the slots it writes at most as many as the tree's measure.
#[cycle(weigh)]
pub fn weigh(tree: &Tree<'_>, assets: &Assets, slots: &mut [Slot]) -> Costs
    requires ready { IsReady (shape tree.now) (length slots.old) }
    requires are { AreAssets assets.now }
    ensures costs { AreCosts assets.now (shape tree.now) result }
    ensures light { IsLight result }
{
    of_node(tree, assets, slots)
}

/// The same, by what the node is.
#[cycle(weigh)]
#[tactic(auto, using(ms_work::proofs::Enough::multi_enough))]
fn of_node(tree: &Tree<'_>, assets: &Assets, slots: &mut [Slot]) -> Costs
    requires ready { IsReady (shape tree.now) (length slots.old) }
    requires are { AreAssets assets.now }
    ensures { AreCosts assets.now (shape tree.now) result }
{
    match tree.view() {
        View::Leaf(leaf) => of_leaf(leaf, assets),
        View::AndOr(x, y, z) => of_and_or(x, y, z, assets, slots),
        View::Two(kind, x, z) => of_two(kind, x, z, assets, slots),
        View::Thresh(k, children) => of_thresh(k, children, assets, slots),
        View::Multi(k, keys) => of_multi(k, keys, assets, slots).0,
        View::Wrap(wrapper, x) => of_wrap(wrapper, x, assets, slots),
    }
}

/// The least weights of a leaf.
pub fn of_leaf(leaf: Leaf, assets: &Assets) -> Costs
    requires typed { IsTyped (leaf_shape leaf) }
    requires are { AreAssets assets.now }
    ensures sat { result.sat ≡ weight_of (cheapest_of assets.now (leaf_shape leaf)) }
    ensures dsat { result.dsat ≡ weight_of (dissatisfaction (leaf_shape leaf)) }
{
    match leaf {
        Leaf::Zero => Costs {
            sat: None,
            dsat: Some(0),
        },
        Leaf::One => Costs {
            sat: Some(0),
            dsat: None,
        },
        Leaf::PkK(key) => Costs {
            sat: of_signature(&key, assets),
            dsat: Some(of_item(&[])),
        },
        Leaf::PkH(key) => of_pk_h(&key, assets),
        Leaf::Older(n) => of_lock(assets.holds_older(n)),
        Leaf::After(n) => of_lock(assets.holds_after(n)),
        Leaf::Hash(value) => of_hash(&value, assets),
    }
}

/// The weight of an item.
pub fn of_item(item: &[u8]) -> u64
    ensures { result ≡ 1 + length item.now }
{
    1 + item.len() as u64
}

/// The weight of the signature that is held with a key.
fn of_signature(key: &Key, assets: &Assets) -> Option<u64>
    ensures { result ≡ weight_of (item (sig_of assets.now key.now)) }
{
    match assets.sig_of(key) {
        Some(sig) => Some(of_item(sig)),
        None => None,
    }
}

fn of_pk_h(key: &Key, assets: &Assets) -> Costs
    requires { AreAssets assets.now }
    ensures sat { result.sat ≡ weight_of (cheapest_of assets.now (tree.pk_h key.now)) }
    ensures dsat { result.dsat ≡ weight_of (dissatisfaction (tree.pk_h key.now)) }
{
    let item = of_item(key.as_bytes());
    Costs {
        sat: both(of_signature(key, assets), Some(item)),
        dsat: Some(of_item(&[]) + item),
    }
}

/// A timelock that holds, or doesn't.
fn of_lock(holds: bool) -> Costs
    ensures sat { result.sat ≡ (if holds then Some 0 else None) }
    ensures dsat { result.dsat ≡ None }
{
    Costs {
        sat: if holds { Some(0) } else { None },
        dsat: None,
    }
}

fn of_hash(value: &HashValue, assets: &Assets) -> Costs
    ensures sat { result.sat ≡ weight_of (item (known assets.now (kind_of value.now) (bytes_of value.now))) }
    ensures dsat { result.dsat ≡ weight_of (dissatisfaction (tree.hash (kind_of value.now) (bytes_of value.now))) }
{
    let sat = match assets.preimage_of(value) {
        Some(preimage) => Some(of_item(preimage)),
        None => None,
    };
    let dsat = if zeros_hash_to(value) {
        None
    } else {
        Some(of_item(&ZEROS))
    };
    Costs { sat, dsat }
}

/// Whether 32 zero bytes hash to a value, so that they can't dissatisfy it.
fn zeros_hash_to(value: &HashValue) -> bool
    ensures { result ≡ bytes_eq (digest_of (kind_of value.now) the_zeros) (bytes_of value.now) }
{
    hash_of(value.kind(), &ZEROS).as_bytes() == value.as_bytes()
}

#[cycle(weigh)]
fn of_and_or(x: &Tree<'_>, y: &Tree<'_>, z: &Tree<'_>, assets: &Assets, slots: &mut [Slot]) -> Costs
    requires x { IsReady (shape x.now) (length slots.old) }
    requires y { IsReady (shape y.now) (length slots.old) }
    requires z { IsReady (shape z.now) (length slots.old) }
    requires are { AreAssets assets.now }
    ensures { AreCosts assets.now (tree.and_or (shape x.now) (shape y.now) (shape z.now)) result }
{
    let x = weigh(x, assets, slots);
    let y = weigh(y, assets, slots);
    let z = weigh(z, assets, slots);
    of_row(&and_or(Argument::X, Argument::Y, Argument::Z), &x, &y, &z)
}

#[cycle(weigh)]
fn of_two(kind: Two, x: &Tree<'_>, z: &Tree<'_>, assets: &Assets, slots: &mut [Slot]) -> Costs
    requires x { IsReady (shape x.now) (length slots.old) }
    requires z { IsReady (shape z.now) (length slots.old) }
    requires are { AreAssets assets.now }
    ensures { AreCosts assets.now (tree.two kind (shape x.now) (shape z.now)) result }
{
    let x = weigh(x, assets, slots);
    let z = weigh(z, assets, slots);
    of_row(&two(kind, Argument::X, Argument::Z), &x, &z, &z)
}

#[cycle(weigh)]
fn of_thresh(k: u64, children: &[Tree<'_>], assets: &Assets, slots: &mut [Slot]) -> Costs
    requires ready { AreReady children.now (length slots.old) }
    requires are { AreAssets assets.now }
    ensures { AreCosts assets.now (tree.thresh k (shapes children.now)) result }
{
    let tally = tally_of(children, assets, slots);
    let dsat = first_of(tally.none_of());
    let sat = weight_of_choice(&tally.lightest_of(k, slots));
    Costs { sat, dsat }
}

/// The first of the numbers that are taken, where there are some.
fn first_of(taken: Option<Numbers>) -> Option<u64>
    ensures { result ≡ option_map (number_in First) taken }
{
    match taken {
        Some(numbers) => Some(numbers.first),
        None => None,
    }
}

/// What a choice weighs, where there is one.
pub fn weight_of_choice(choice: &Option<Choice>) -> Option<u64>
    ensures { result ≡ option_map (λ c. c.weight) choice.now }
{
    match choice {
        Some(choice) => Some(choice.weight),
        None => None,
    }
}

/// The children of a threshold, counted in.
#[cycle(weigh)]
#[tactic(auto, using(ms_work::proofs::Children::ready_behind, ms_work::proofs::Children::room_behind, ms_tree::proofs::Parts::nodes_at))]
fn tally_of(children: &[Tree<'_>], assets: &Assets, slots: &mut [Slot]) -> Tally
    requires ready { AreReady children.now (length slots.old) }
    requires are { AreAssets assets.now }
    ensures fits { Fits result slots.new }
    ensures told { Tells First (costs_of (children_of assets.now children.now)) result slots.new }
{
    let mut tally = Tally::new();
    for child in children {
        let costs = weigh(child, assets, &mut slots[tally.free..]);
        tally.add_costs(slots, &costs);
    }
    tally
}

/// The least weights of a `multi`, and the choice of its keys.
pub fn of_multi(
    k: u64,
    keys: &[Key],
    assets: &Assets,
    slots: &mut [Slot],
) -> (Costs, Option<Choice>)
    requires enough { k ≤ length keys.now }
    requires few { length keys.now ≤ MOST_MEASURE }
    requires are { AreAssets assets.now }
    requires room { length keys.now ≤ length slots.old }
    ensures sat { result.0.sat ≡ weight_of (cheapest_of assets.now (tree.multi k keys.now)) }
    ensures dsat { result.0.dsat ≡ weight_of (dissatisfaction (tree.multi k keys.now)) }
    ensures choice { IsFound (lengths_of_keys assets.now keys.now) (children_of_keys assets.now keys.now) k result.1 }
{
    let choice = choice_of_keys(k, keys, assets, slots);
    let signatures = weight_of_choice(&choice);
    let costs = Costs {
        sat: both(Some(of_item(&[])), signatures),
        dsat: Some((k + 1) * of_item(&[])),
    };
    (costs, choice)
}

/// The lightest signatures of `k` keys. All choices have as many items, so the lengths are compared, and
/// the bytes for their sizes are added to what is chosen.
fn choice_of_keys(k: u64, keys: &[Key], assets: &Assets, slots: &mut [Slot]) -> Option<Choice>
    requires enough { k ≤ length keys.now }
    requires few { length keys.now ≤ MOST_MEASURE }
    requires are { AreAssets assets.now }
    requires room { length keys.now ≤ length slots.old }
    ensures { IsFound (lengths_of_keys assets.now keys.now) (children_of_keys assets.now keys.now) k result }
{
    let tally = tally_of_keys(keys, assets, slots);
    match tally.lightest_of(k, slots) {
        Some(choice) => Some(Choice {
            weight: choice.weight + k,
            last: choice.last,
        }),
        None => None,
    }
}

/// The keys of a `multi`, counted in as children: a key is satisfied by its signature, and passed over
/// by nothing.
fn tally_of_keys(keys: &[Key], assets: &Assets, slots: &mut [Slot]) -> Tally
    requires few { length keys.now ≤ MOST_MEASURE }
    requires are { AreAssets assets.now }
    requires room { length keys.now ≤ length slots.old }
    ensures fits { Fits result slots.new }
    ensures told { Tells First (lengths_of_keys assets.now keys.now) result slots.new }
{
    let mut tally = Tally::new();
    for key in keys {
        tally.add_costs(slots, &of_key(key, assets));
    }
    tally
}

/// A key of a `multi` as a child: the length of its signature.
pub fn of_key(key: &Key, assets: &Assets) -> Costs
    requires { AreAssets assets.now }
    ensures costs { result ≡ length_of_key assets.now key.now }
    ensures light { IsLight result }
{
    Costs {
        sat: length_of_signature(key, assets),
        dsat: Some(0),
    }
}

/// The length of the signature that is held with a key.
fn length_of_signature(key: &Key, assets: &Assets) -> Option<u64>
    ensures { result ≡ option_map length (sig_of assets.now key.now) }
{
    match assets.sig_of(key) {
        Some(sig) => Some(sig.len() as u64),
        None => None,
    }
}

#[cycle(weigh)]
fn of_wrap(wrapper: Wrapper, x: &Tree<'_>, assets: &Assets, slots: &mut [Slot]) -> Costs
    requires ready { IsReady (shape x.now) (length slots.old) }
    requires are { AreAssets assets.now }
    ensures { AreCosts assets.now (tree.wrap wrapper (shape x.now)) result }
{
    let x = weigh(x, assets, slots);
    of_row(&wrap(wrapper, Argument::X), &x, &x, &x)
}
