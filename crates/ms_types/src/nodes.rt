//! The types of all nodes of a tree, whether or not what stands beside them or above them has one.
#![tactic(auto, using(std::proofs::Common::append_assoc))]

ghost use Rattle.std.specs.Prelude.{◌≡◌, ℕ, ◌<◌, ◌^◌, ◌++◌, ◌∷◌, [], map, All, IfOk, List, Option};
ghost use Rattle.def_tree.specs.InRange.{IsInRange};
ghost use Rattle.def_tree.specs.Nodes.{all_nodes, nodes_of_all};
ghost use Rattle.def_types.specs.Correctness.{correctness_of as the_correctness_of};
ghost use Rattle.def_types.specs.Malleable.{malleability_of as the_malleability_of};
ghost use Rattle.ms_tree.specs.Shape.{shape, shapes};
ghost use Rattle.ms_types.specs.Told.{told};
ghost use Rattle.ms_types.specs.Scaffolding.Told.{passed as the_passed, then_told, row_told, joined, one_told, tree_told, trees_told, seen_told, Counts};

use crate::system::TypeSystem;
use def_types::{CorrectnessType, MalleabilityProperties, Rule};
use ms_tree::{Tree, Two, View, Wrapper};
use std::alloc::{AllocError, Global};

/// The correctness type of each node of a tree, of what stands below it alone; none where that breaks a rule. In the order
/// of the nodes' numbers: children before parents and left to right. `AllocError` comes only where memory is wanting.
pub fn correctness_of_nodes(
    alloc: Global,
    tree: &Tree<'_>,
) -> Result<Vec<Option<CorrectnessType>>, AllocError>
    requires { IsInRange (shape tree.now) }
    ensures { IfOk result (λ types. types.items ≡ map (λ t. told (the_correctness_of t)) (all_nodes (shape tree.now))) }
{
    let mut types: Vec<Option<CorrectnessType>> = Vec::new(alloc);
    add_tree(&mut types, tree)?;
    Ok(types)
}

/// The same of the malleability properties.
pub fn malleability_of_nodes(
    alloc: Global,
    tree: &Tree<'_>,
) -> Result<Vec<Option<MalleabilityProperties>>, AllocError>
    requires { IsInRange (shape tree.now) }
    ensures { IfOk result (λ types. types.items ≡ map (λ t. told (the_malleability_of t)) (all_nodes (shape tree.now))) }
{
    let mut types: Vec<Option<MalleabilityProperties>> = Vec::new(alloc);
    add_tree(&mut types, tree)?;
    Ok(types)
}

/// Adds the types of a tree's nodes, and gives that of its root.
#[cycle(add)]
fn add_tree<T: TypeSystem>(
    types: &mut Vec<Option<T>>,
    tree: &Tree<'_>,
) -> Result<Option<T>, AllocError>
    requires { IsInRange (shape tree.now) }
    ensures added { IfOk result (λ ty. types.new.items ≡ types.old.items ++ map (tree_told T.rows) (all_nodes (shape tree.now))) }
    ensures told { IfOk result (λ ty. ty ≡ tree_told T.rows (shape tree.now)) }
{
    match tree.view() {
        View::Leaf(leaf) => add(types, passed(T::of_leaf(&leaf))),
        View::AndOr(x, y, z) => {
            let x = add_tree(types, x)?;
            let y = add_tree(types, y)?;
            let z = add_tree(types, z)?;
            add(types, of_and_or(x, y, z))
        }
        View::Two(kind, x, y) => {
            let x = add_tree(types, x)?;
            let y = add_tree(types, y)?;
            add(types, of_two(kind, x, y))
        }
        View::Thresh(k, children) => {
            let seen = add_children::<T>(types, children)?;
            add(types, of_thresh::<T>(k, seen))
        }
        View::Multi(k, keys) => add(types, passed(T::of_multi(k, keys))),
        View::Wrap(wrapper, x) => {
            let x = add_tree(types, x)?;
            add(types, of_wrap(wrapper, x))
        }
    }
}

/// Adds the types of the nodes of a threshold's children, and gives what the threshold's needs to know of theirs.
#[cycle(add)]
fn add_children<T: TypeSystem>(
    types: &mut Vec<Option<T>>,
    children: &[Tree<'_>],
) -> Result<Option<T::Children>, AllocError>
    requires { All (λ x. IsInRange (shape x)) children.now }
    ensures added { IfOk result (λ seen. types.new.items ≡ types.old.items ++ map (tree_told T.rows) (nodes_of_all (shapes children.now))) }
    ensures told { IfOk result (λ seen. seen ≡ seen_told T.seen (trees_told T.rows (shapes children.now))) }
{
    let mut seen = Some(T::no_children());
    for child in children {
        let ty = add_tree(types, child)?;
        seen = and_child::<T>(seen, ty);
    }
    Ok(seen)
}

/// One more child behind the others.
fn and_child<T: TypeSystem>(seen: Option<T::Children>, child: Option<T>) -> Option<T::Children>
    requires { (types : Option (List T)) × (count : ℕ) × (seen ≡ seen_told T.seen types) × Counts types count × (count < 2 ^ 63) }
    ensures { (types : Option (List T)) → seen ≡ seen_told T.seen types → result ≡ seen_told T.seen (joined types (one_told child)) }
{
    match (seen, child) {
        (Some(seen), Some(child)) => Some(T::and_child(seen, child)),
        _ => None,
    }
}

/// Adds the type of a node, and gives it.
fn add<T: TypeSystem>(types: &mut Vec<Option<T>>, ty: Option<T>) -> Result<Option<T>, AllocError>
    ensures added { IfOk result (λ same. types.new.items ≡ types.old.items ++ ty ∷ []) }
    ensures same { IfOk result (λ same. same ≡ ty) }
{
    types.push(ty)?;
    Ok(ty)
}

/// What the row of a node gives, where its requirements hold.
pub fn passed<T: TypeSystem>(of_node: Result<T, Rule>) -> Option<T>
    ensures { result ≡ the_passed of_node }
{
    match of_node {
        Ok(ty) => Some(ty),
        Err(_) => None,
    }
}

/// What `andor` gives over children of these types, where each has one and its requirements hold.
pub fn of_and_or<T: TypeSystem>(x: Option<T>, y: Option<T>, z: Option<T>) -> Option<T>
    ensures { result ≡ then_told x (λ a. then_told y (λ b. then_told z (λ c. row_told (T.rows.and_or a b c)))) }
{
    match (x, y, z) {
        (Some(x), Some(y), Some(z)) => passed(T::of_and_or(x, y, z)),
        _ => None,
    }
}

/// The same of a fragment with two children.
pub fn of_two<T: TypeSystem>(kind: Two, x: Option<T>, y: Option<T>) -> Option<T>
    ensures { result ≡ then_told x (λ a. then_told y (λ b. row_told (T.rows.two kind a b))) }
{
    match (x, y) {
        (Some(x), Some(y)) => passed(T::of_two(kind, x, y)),
        _ => None,
    }
}

fn of_thresh<T: TypeSystem>(k: u64, seen: Option<T::Children>) -> Option<T>
    ensures { (types : Option (List T)) → seen ≡ seen_told T.seen types → result ≡ then_told types (λ children. row_told (T.rows.thresh k children)) }
{
    match seen {
        Some(seen) => passed(T::of_thresh(k, seen)),
        None => None,
    }
}

/// The same of a wrapper.
pub fn of_wrap<T: TypeSystem>(wrapper: Wrapper, x: Option<T>) -> Option<T>
    ensures { result ≡ then_told x (λ a. row_told (T.rows.wrap wrapper a)) }
{
    match x {
        Some(x) => passed(T::of_wrap(wrapper, x)),
        None => None,
    }
}
