//! Repeated keys: the keys are copied side by side into the working room that is lent, and compared there.
ghost use Rattle.std.specs.Prelude.{◌≡◌, ◌+◌, ◌*◌, ◌<◌, ◌≤◌, ◌^◌, ◌++◌, [], length, map, take, All, IfSome};
ghost use Rattle.std.specs.List.{list_any};
ghost use Rattle.def_tree.specs.InRange.{IsInRange, measure, measure_of};
ghost use Rattle.def_tree.specs.Size.{nodes, nodes_of};
ghost use Rattle.def_sane.specs.Keys.{repeated_key as the_repeated_key};
ghost use Rattle.ms_tree.specs.Shape.{shape, shapes};
ghost use Rattle.ms_mixing.specs.Scaffolding.Repeats.{entry, held, held_in, held_by, is_same, repeats_first};

use ms_choice::Slot;
use ms_tree::{Key, Leaf, Tree, View};

/// A key and the number of the node that holds it, in two slots.
type Entry = [Slot; 2];

/// The first node that holds a key which stands in an earlier node or earlier in itself. Nodes are
/// numbered from 0, children before parents and left to right. Each key is compared with those before it,
/// of which a valid tree has few.
pub fn repeated_key(tree: &Tree<'_>, slots: &mut [Slot]) -> Option<u32>
    requires in_range { IsInRange (shape tree.now) }
    requires room { 4 * measure (shape tree.now) ≤ length slots.old }
    ensures first { result ≡ the_repeated_key (shape tree.now) }
    ensures node { IfSome result (λ node. node < nodes (shape tree.now)) }
{
    let (entries, _) = slots.as_chunks_mut::<2>();
    let mut passed = Passed { nodes: 0, keys: 0 };
    copy_keys(tree, entries, &mut passed);
    first_repeated(&entries[..passed.keys])
}

/// How many nodes and keys were passed.
#[derive(Drop)]
struct Passed {
    nodes: u32,
    keys: usize,
}

/// Copies the keys of a part of the tree behind those that were passed.
#[cycle(copy)]
fn copy_keys(part: &Tree<'_>, entries: &mut [Entry], passed: &mut Passed)
    requires part { IsInRange (shape part.now) }
    requires nodes { passed.old.nodes + nodes (shape part.now) < 2 ^ 32 }
    requires room { passed.old.keys + measure (shape part.now) ≤ length entries.old }
    ensures copied { take passed.new.keys entries.new ≡ take passed.old.keys entries.old ++ map entry (held passed.old.nodes (shape part.now)) }
    ensures nodes { passed.new.nodes ≡ passed.old.nodes + nodes (shape part.now) }
    ensures keys { passed.new.keys ≤ passed.old.keys + measure (shape part.now) }
{
    match part.view() {
        View::Leaf(leaf) => match leaf {
            Leaf::PkK(key) | Leaf::PkH(key) => copy_own(&[key], entries, passed),
            Leaf::Zero | Leaf::One | Leaf::Older(_) | Leaf::After(_) | Leaf::Hash(_) => {
                passed.nodes += 1;
            }
        },
        View::AndOr(x, y, z) => {
            copy_keys(x, entries, passed);
            copy_keys(y, entries, passed);
            copy_keys(z, entries, passed);
            passed.nodes += 1;
        }
        View::Two(_, x, y) => {
            copy_keys(x, entries, passed);
            copy_keys(y, entries, passed);
            passed.nodes += 1;
        }
        View::Thresh(_, children) => {
            copy_keys_of_all(children, entries, passed);
            passed.nodes += 1;
        }
        View::Multi(_, keys) => copy_own(keys, entries, passed),
        View::Wrap(_, x) => {
            copy_keys(x, entries, passed);
            passed.nodes += 1;
        }
    }
}

/// The same of several parts side by side.
#[cycle(copy)]
fn copy_keys_of_all(parts: &[Tree<'_>], entries: &mut [Entry], passed: &mut Passed)
    requires parts { All (λ x. IsInRange (shape x)) parts.now }
    requires nodes { passed.old.nodes + nodes_of (shapes parts.now) < 2 ^ 32 }
    requires room { passed.old.keys + measure_of (shapes parts.now) ≤ length entries.old }
    ensures copied { take passed.new.keys entries.new ≡ take passed.old.keys entries.old ++ map entry (held_in passed.old.nodes (shapes parts.now)) }
    ensures nodes { passed.new.nodes ≡ passed.old.nodes + nodes_of (shapes parts.now) }
    ensures keys { passed.new.keys ≤ passed.old.keys + measure_of (shapes parts.now) }
{
    for part in parts {
        copy_keys(part, entries, passed);
    }
}

/// Copies the keys that the next node holds itself, and passes it.
fn copy_own(own: &[Key], entries: &mut [Entry], passed: &mut Passed)
    requires node { passed.old.nodes + 1 < 2 ^ 32 }
    requires room { passed.old.keys + length own.now ≤ length entries.old }
    ensures copied { take passed.new.keys entries.new ≡ take passed.old.keys entries.old ++ map entry (held_by passed.old.nodes own.now) }
    ensures nodes { passed.new.nodes ≡ passed.old.nodes + 1 }
    ensures keys { passed.new.keys ≡ passed.old.keys + length own.now }
{
    for key in own {
        entries[passed.keys] = entry_of(key, passed.nodes);
        passed.keys += 1;
    }
    passed.nodes += 1;
}

/// A key of this node as an entry.
fn entry_of(key: &Key, node: u32) -> Entry
    ensures { result ≡ entry (node, key.now) }
{
    let bytes = key.as_bytes();
    let (words, _) = bytes.as_chunks::<8>();
    let head = Slot {
        first: i64::from_be_bytes(words[0]),
        second: i64::from_be_bytes(words[1]),
        third: i64::from_be_bytes(words[2]),
        place: 0,
    };
    let tail = Slot {
        first: i64::from_be_bytes(words[3]),
        second: bytes[32] as i64,
        third: 0,
        place: node,
    };
    [head, tail]
}

/// The node of the first entry with a key that stands in an entry before it.
fn first_repeated(entries: &[Entry]) -> Option<u32>
    ensures { result ≡ repeats_first [] entries.now }
{
    for (index, entry) in entries.iter().enumerate() {
        if stands_in(entry, &entries[..index]) {
            return Some(entry[1].place);
        }
    }
    None
}

/// Whether the key of an entry is that of one of these.
fn stands_in(entry: &Entry, before: &[Entry]) -> bool
    ensures { result ≡ list_any (is_same entry.now) before.now }
{
    before.iter().any(|other| is_same_key(entry, other))
}

fn is_same_key(entry: &Entry, other: &Entry) -> bool
    ensures { result ≡ is_same entry.now other.now }
{
    let [head, tail] = entry;
    let [other_head, other_tail] = other;
    head.first == other_head.first
        && head.second == other_head.second
        && head.third == other_head.third
        && tail.first == other_tail.first
        && tail.second == other_tail.second
}
