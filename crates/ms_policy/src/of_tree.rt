//! The policy of a miniscript, made simple.
ghost use Rattle.std.specs.Prelude.{◌≡◌, ◌≤◌, [], ◌∷◌, map, All, IfOk};
ghost use Rattle.def_policy.specs.Keys.{HasDistinctKeys};
ghost use Rattle.def_policy.specs.Laws.{SaysSatisfiable, IsSimple, WantsKey};
ghost use Rattle.def_policy.specs.Plain.{join_of as the_join_of, plain, plain_each};
ghost use Rattle.def_policy.specs.Policy as policy;
ghost use Rattle.def_policy.specs.Simple.{joined, simple, simple_each};
ghost use Rattle.def_policy.specs.Size.{size, depth, HasLocks, MOST_POLICIES, MOST_POLICY_DEPTH};
ghost use Rattle.def_sane.specs.Unfit.{IsSane};
ghost use Rattle.def_tree.specs.InRange.{IsInRange};
ghost use Rattle.ms_policy.specs.Shape.{policy_shape};
ghost use Rattle.ms_tree.specs.Shape.{shape, shapes, leaf_shape};

use crate::joins::{joined_pair, threshold};
use crate::policy::Policy;
use def_policy::Join;
use ms_tree::{Key, Leaf, Tree, Two, View};
use std::alloc::{AllocError, Global};

/// The policy of a sane miniscript in range, made simple. It is true of assets exactly where they make a canonical
/// satisfaction. It joins two parts at least in each `all` and `any`, a threshold wants more than one part and not all, and
/// it wants the signature of one key at least, where any are enough. At most 262,144 policies are in it, itself and all parts of parts counted, it is at most 514 deep, no
/// key stands twice in it, and its timelocks have operands from 1 to 2^31 - 1. The only refusal is want of memory.
pub fn policy_of(alloc: Global, tree: &Tree<'_>) -> Result<Policy, AllocError>
    requires in_range { IsInRange (shape tree.now) }
    requires sane { IsSane (shape tree.now) }
    ensures simple { IfOk result (λ p. policy_shape p ≡ simple (plain (shape tree.now))) }
    ensures satisfied { IfOk result (λ p. SaysSatisfiable (shape tree.now) (policy_shape p)) }
    ensures form { IfOk result (λ p. IsSimple (policy_shape p)) }
    ensures signed { IfOk result (λ p. WantsKey (policy_shape p)) }
    ensures few { IfOk result (λ p. size (policy_shape p) ≤ MOST_POLICIES) }
    ensures shallow { IfOk result (λ p. depth (policy_shape p) ≤ MOST_POLICY_DEPTH) }
    ensures distinct { IfOk result (λ p. HasDistinctKeys (policy_shape p)) }
    ensures locks { IfOk result (λ p. HasLocks (policy_shape p)) }
{
    simplified(alloc, tree)
}

#[cycle(policy)]
#[tactic(auto, using(crate::proofs::Parts::simple_keys))]
fn simplified(alloc: Global, tree: &Tree<'_>) -> Result<Policy, AllocError>
    requires { IsInRange (shape tree.now) }
    ensures { IfOk result (λ p. policy_shape p ≡ simple (plain (shape tree.now))) }
{
    match tree.view() {
        View::Leaf(leaf) => Ok(atom(leaf)),
        View::AndOr(x, y, z) => {
            let both = simplified_pair(alloc, Join::All, x, y)?;
            let other = simplified(alloc, z)?;
            joined_pair(alloc, Join::Any, both, other)
        }
        View::Two(kind, x, y) => simplified_pair(alloc, join_of(kind), x, y),
        View::Thresh(k, children) => threshold(alloc, k, simplified_each(alloc, children)?),
        View::Multi(k, keys) => threshold(alloc, k, key_atoms(alloc, keys)?),
        View::Wrap(_, x) => simplified(alloc, x),
    }
}

#[cycle(policy)]
fn simplified_pair(
    alloc: Global,
    how: Join,
    x: &Tree<'_>,
    y: &Tree<'_>,
) -> Result<Policy, AllocError>
    requires x { IsInRange (shape x.now) }
    requires y { IsInRange (shape y.now) }
    ensures { IfOk result (λ p. policy_shape p ≡ joined how (simple (plain (shape x.now)) ∷ simple (plain (shape y.now)) ∷ [])) }
{
    let first = simplified(alloc, x)?;
    let second = simplified(alloc, y)?;
    joined_pair(alloc, how, first, second)
}

#[cycle(policy)]
fn simplified_each(alloc: Global, children: &[Tree<'_>]) -> Result<Vec<Policy>, AllocError>
    requires { All (λ t. IsInRange (shape t)) children.now }
    ensures { IfOk result (λ parts. map policy_shape parts.items ≡ simple_each (plain_each (shapes children.now))) }
{
    let mut parts = Vec::new(alloc);
    for child in children {
        parts.push(simplified(alloc, child)?)?;
    }
    Ok(parts)
}

fn key_atoms(alloc: Global, keys: &[Key]) -> Result<Vec<Policy>, AllocError>
    ensures { IfOk result (λ parts. map policy_shape parts.items ≡ map policy.key keys.now) }
{
    let mut parts = Vec::new(alloc);
    for key in keys {
        parts.push(Policy::Key(*key))?;
    }
    Ok(parts)
}

/// The policy of a fragment without children.
fn atom(leaf: Leaf) -> Policy
    ensures { policy_shape result ≡ simple (plain (leaf_shape leaf)) }
{
    match leaf {
        Leaf::Zero => Policy::Never,
        Leaf::One => Policy::Always,
        Leaf::PkK(key) | Leaf::PkH(key) => Policy::Key(key),
        Leaf::Older(n) => Policy::Older(n),
        Leaf::After(n) => Policy::After(n),
        Leaf::Hash(value) => Policy::Hash(value),
    }
}

/// How a fragment joins its two children.
fn join_of(kind: Two) -> Join
    ensures { result ≡ the_join_of kind }
{
    match kind {
        Two::AndV | Two::AndB => Join::All,
        Two::OrB | Two::OrC | Two::OrD | Two::OrI => Join::Any,
    }
}
