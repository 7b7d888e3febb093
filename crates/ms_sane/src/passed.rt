//! Trees that passed: they are made only of trees that are valid, or sane.
ghost use Rattle.std.specs.Prelude.{◌≡◌, ◌*◌, ◌≤◌, Ok, Some, IfOk, IfErr, vec_len};
ghost use Rattle.std.proofs.Props.{props};
ghost use Rattle.def_tree.specs.InRange.{IsInRange, measure};
ghost use Rattle.def_types.specs.Correctness.{correctness_of};
ghost use Rattle.def_types.specs.Malleable.{malleability_of as the_malleability_of};
ghost use Rattle.def_sane.specs.declared.Rules.TheVariants.{Consensus};
ghost use Rattle.def_sane.specs.TheLimits.{the_limits};
ghost use Rattle.def_sane.specs.Unfit.{first_unfit_under, first_unfit_valid_under, IsValidUnder, IsSaneUnder};
ghost use Rattle.ms_tree.specs.Shape.{shape};
ghost use Rattle.ms_sane.specs.Misfits.{IsMisfit};
ghost use Rattle.ms_sane.specs.Place.{IsOfTree};
ghost use Rattle.ms_work.specs.Scaffolding.InRange.{IsInRange-prop};

use crate::misfit::Misfit;
use crate::resources::limits_from;
use crate::valid::{are_too_many, find_short};
use def_sane::{Limits, Rules, Unfit};
use ms_bytes::MAX_OPS_PER_SCRIPT;
use ms_mixing::{mix, repeated_key};
use ms_tree::Tree;
use ms_types::{CorrectnessType, MalleabilityProperties, malleability_of};
use ms_work::Work;
use std::alloc::Global;

/// A tree that is valid by these rules, with what is known of it, and working room for calls about it. Such a call takes
/// it by `&mut`, takes no memory for its own work, and leaves all of it but what the room holds.
#[derive(Drop)]
pub struct ValidTree<'a> {
    /// The tree.
    pub tree: Tree<'a>,
    /// The rules by which it is valid.
    pub rules: Rules,
    /// Its correctness type.
    pub ty: CorrectnessType,
    /// Its limits.
    pub limits: Limits,
    /// Working room for it.
    pub work: Work,
    pub ghost in_range: { IsInRange (shape tree) } by { IsInRange-prop (shape tree) },
    pub ghost valid: { IsValidUnder rules (shape tree) } by { Prim.hlevel props },
    pub ghost valid_by_consensus: { IsValidUnder Consensus (shape tree) } by { Prim.hlevel props },
    pub ghost typed: { correctness_of (shape tree) ≡ Ok ty } by { Prim.hlevel props },
    pub ghost limited: { limits ≡ the_limits (shape tree) },
    pub ghost room: { 4 * measure (shape tree) ≤ vec_len work.slots },
}

/// A tree that is sane by the rules by which it is valid.
#[derive(Drop)]
pub struct SaneTree<'a> {
    /// The tree, as a valid one.
    pub valid: ValidTree<'a>,
    /// Its malleability properties.
    pub malleability_of: MalleabilityProperties,
    pub ghost sane: { IsSaneUnder valid.rules (shape valid.tree) } by { Prim.hlevel props },
    pub ghost sane_by_consensus: { IsSaneUnder Consensus (shape valid.tree) } by { Prim.hlevel props },
    pub ghost malleability_typed: { the_malleability_of (shape valid.tree) ≡ Ok malleability_of } by { Prim.hlevel props },
}

impl<'a> ValidTree<'a> {
    /// A tree that is valid by these rules, or the first reason against the tree: a requirement of its type that is false, a
    /// top that isn't B, a Script that is too large, too many opcodes, or too many items of a satisfaction. By policy a
    /// Script has at most 3,600 bytes and a satisfaction at most 100 items, by consensus a Script has at most 10,000 bytes,
    /// and a satisfaction any number of items. By both it has at most 201 opcodes. What needs no working room is asked before
    /// any is made.
    #[tactic(auto, using(def_sane::proofs::Meanings::valid_under_consensus, def_sane::proofs::TheLimits::as_computed))]
    pub fn new(alloc: Global, tree: Tree<'a>, rules: Rules) -> Result<ValidTree<'a>, Misfit>
        requires { IsInRange (shape tree) }
        ensures tree { IfOk result (λ valid. valid.tree ≡ tree.entry) }
        ensures rules { IfOk result (λ valid. valid.rules ≡ rules) }
        ensures valid { IfOk result (λ valid. IsValidUnder rules (shape valid.tree)) }
        ensures unfit { IfErr result (IsMisfit (first_unfit_valid_under rules) (shape tree.entry)) }
    {
        let short = find_short(&tree, rules)?;
        let mut work = Work::new(alloc, &tree)?;
        let limits = limits_from(short.extent, &tree, &mut work);
        if limits.ops > MAX_OPS_PER_SCRIPT as u64 {
            return Err(Misfit::Unfit(Unfit::Ops(limits.ops)));
        }
        if are_too_many(limits.items, rules) {
            return Err(Misfit::Unfit(Unfit::Items(limits.items)));
        }
        Ok(ValidTree {
            tree,
            rules,
            ty: short.ty,
            limits,
            work,
        })
    }
}

impl<'a> SaneTree<'a> {
    /// A tree that is sane by these rules, or the first reason against the tree: one against its being valid, a requirement
    /// on its malleability properties that is false, a top that can be satisfied without a signature, a node that mixes
    /// timelocks, or a node with a key that stands before.
    pub fn new(alloc: Global, tree: Tree<'a>, rules: Rules) -> Result<SaneTree<'a>, Misfit>
        requires { IsInRange (shape tree) }
        ensures tree { IfOk result (λ sane. sane.valid.tree ≡ tree.entry) }
        ensures rules { IfOk result (λ sane. sane.valid.rules ≡ rules) }
        ensures sane { IfOk result (λ sane. IsSaneUnder rules (shape sane.valid.tree)) }
        ensures unfit { IfErr result (IsMisfit (first_unfit_under rules) (shape tree.entry)) }
    {
        let valid = ValidTree::new(alloc, tree, rules)?;
        let sane = SaneTree::of(valid)?;
        Ok(sane)
    }

    /// The same of a tree that is valid: neither its type nor its limits are found again. Takes no memory.
    #[tactic(auto, using(def_sane::proofs::Meanings::sane_under_consensus))]
    pub fn of(mut valid: ValidTree<'a>) -> Result<SaneTree<'a>, Unfit>
        ensures tree { IfOk result (λ sane. sane.valid.tree ≡ valid.entry.tree) }
        ensures rules { IfOk result (λ sane. sane.valid.rules ≡ valid.entry.rules) }
        ensures unfit { IfErr result (λ unfit. first_unfit_under valid.entry.rules (shape valid.entry.tree) ≡ Some unfit) }
        ensures place { IfErr result (IsOfTree (shape valid.entry.tree)) }
    {
        let tree = valid.tree;
        let malleability_of = match malleability_of(&tree) {
            Ok(malleability_of) => malleability_of,
            Err(at) => return Err(Unfit::Malleable(at)),
        };
        if !malleability_of.s {
            return Err(Unfit::NoSignature);
        }
        if let Some(node) = mix(&tree) {
            return Err(Unfit::MixedLocks(node));
        }
        if let Some(node) = repeated_key(&tree, &mut valid.work.slots) {
            return Err(Unfit::RepeatedKey(node));
        }
        Ok(SaneTree {
            valid,
            malleability_of,
        })
    }
}
