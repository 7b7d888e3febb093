//! Parts that are simple, joined to one policy that is simple.
ghost use Rattle.std.specs.Prelude.{◌≡◌, ◌++◌, [], ◌∷◌, ◌||◌, not, length, filter, map, IfOk, OnOk};
ghost use Rattle.std.specs.List.{list_any};
ghost use Rattle.def_policy.specs.Policy.{policies_of, joining as the_joining};
ghost use Rattle.def_policy.specs.Simple as simple;
ghost use Rattle.ms_policy.specs.Shape.{policy_shape};

use crate::policy::Policy;
use def_policy::Join;
use std::alloc::{AllocError, Global};

/// The part that says nothing among others: Always in All, Never in Any.
fn neutral(how: Join) -> Policy
    ensures { policy_shape result ≡ simple.neutral how }
{
    match how {
        Join::All => Policy::Always,
        Join::Any => Policy::Never,
    }
}

/// The part that decides alone: Never in All, Always in Any.
fn decisive(how: Join) -> Policy
    ensures { policy_shape result ≡ simple.decisive how }
{
    match how {
        Join::All => Policy::Never,
        Join::Any => Policy::Always,
    }
}

fn is_decisive(how: Join, part: &Policy) -> bool
    ensures { result ≡ simple.is_decisive how (policy_shape part.now) }
{
    match how {
        Join::All => matches!(part, Policy::Never),
        Join::Any => matches!(part, Policy::Always),
    }
}

fn has_decisive(how: Join, parts: &[Policy]) -> bool
    ensures { result ≡ list_any (simple.is_decisive how) (map policy_shape parts.now) }
{
    for part in parts {
        if is_decisive(how, part) {
            return true;
        }
    }
    false
}

/// Adds all of these parts.
fn add(mut parts: Vec<Policy>, opened: &mut Vec<Policy>) -> Result<(), AllocError>
    ensures { OnOk result (map policy_shape opened.new.items ≡ map policy_shape opened.old.items ++ map policy_shape parts.items) }
{
    opened.append(&mut parts)
}

/// Adds to the parts of an All what stands in a part's place.
fn open_in_all(part: Policy, opened: &mut Vec<Policy>) -> Result<(), AllocError>
    ensures { OnOk result (map policy_shape opened.new.items ≡ map policy_shape opened.old.items ++ simple.opened Join.All (policy_shape part)) }
{
    match part {
        Policy::Always => Ok(()),
        Policy::All(parts) => add(parts, opened),
        part => Ok(opened.push(part)?),
    }
}

/// Adds to the parts of an Any what stands in a part's place.
fn open_in_any(part: Policy, opened: &mut Vec<Policy>) -> Result<(), AllocError>
    ensures { OnOk result (map policy_shape opened.new.items ≡ map policy_shape opened.old.items ++ simple.opened Join.Any (policy_shape part)) }
{
    match part {
        Policy::Never => Ok(()),
        Policy::Any(parts) => add(parts, opened),
        part => Ok(opened.push(part)?),
    }
}

/// Adds what stands in a part's place: nothing for one that says nothing, and its parts for one that is joined in the
/// same way.
fn open(how: Join, part: Policy, opened: &mut Vec<Policy>) -> Result<(), AllocError>
    ensures { OnOk result (map policy_shape opened.new.items ≡ map policy_shape opened.old.items ++ simple.opened how (policy_shape part)) }
{
    match how {
        Join::All => open_in_all(part, opened),
        Join::Any => open_in_any(part, opened),
    }
}

/// These parts, joined as they are.
fn joining(how: Join, parts: Vec<Policy>) -> Policy
    ensures { policy_shape result ≡ the_joining how (policies_of (map policy_shape parts.items)) }
{
    match how {
        Join::All => Policy::All(parts),
        Join::Any => Policy::Any(parts),
    }
}

/// No part is the neutral one, one part is itself, and several are joined.
fn gathered(how: Join, mut parts: Vec<Policy>) -> Policy
    ensures { policy_shape result ≡ simple.gathered how (map policy_shape parts.items) }
{
    if parts.len() >= 2 {
        return joining(how, parts);
    }
    match parts.pop() {
        Some(only) => only,
        None => neutral(how),
    }
}

/// Parts, joined: the parts of one that is joined in the same way stand in its place.
#[tactic(auto, using(crate::proofs::Parts::opened_more))]
pub(crate) fn joined(alloc: Global, how: Join, parts: Vec<Policy>) -> Result<Policy, AllocError>
    ensures { IfOk result (λ p. policy_shape p ≡ simple.joined how (map policy_shape parts.items)) }
{
    if has_decisive(how, &parts) {
        return Ok(decisive(how));
    }
    let mut opened = Vec::new(alloc);
    for part in parts {
        open(how, part, &mut opened)?;
    }
    Ok(gathered(how, opened))
}

/// Two parts, joined.
pub(crate) fn joined_pair(
    alloc: Global,
    how: Join,
    x: Policy,
    y: Policy,
) -> Result<Policy, AllocError>
    ensures { IfOk result (λ p. policy_shape p ≡ simple.joined how (policy_shape x ∷ policy_shape y ∷ [])) }
{
    let mut parts = Vec::new(alloc);
    parts.push(x)?;
    parts.push(y)?;
    joined(alloc, how, parts)
}

/// So many of parts of which none is Always or Never.
fn chosen(alloc: Global, k: u64, parts: Vec<Policy>) -> Result<Policy, AllocError>
    ensures { IfOk result (λ p. policy_shape p ≡ simple.chosen k (map policy_shape parts.items)) }
{
    let count = parts.len() as u64;
    if k == 0 {
        Ok(Policy::Always)
    } else if count < k {
        Ok(Policy::Never)
    } else if k == 1 {
        joined(alloc, Join::Any, parts)
    } else if k == count {
        joined(alloc, Join::All, parts)
    } else {
        Ok(Policy::Thresh(k, parts))
    }
}

fn is_always(part: &Policy) -> bool
    ensures { result ≡ simple.is_always (policy_shape part.now) }
{
    matches!(part, Policy::Always)
}

/// How many of the parts are Always.
fn count_always(parts: &[Policy]) -> u64
    ensures { result ≡ length (filter simple.is_always (map policy_shape parts.now)) }
{
    let mut count = 0;
    for part in parts {
        if is_always(part) {
            count += 1;
        }
    }
    count
}

/// Adds a part that is neither Always nor Never.
fn keep(part: Policy, kept: &mut Vec<Policy>) -> Result<(), AllocError>
    ensures { OnOk result (map policy_shape kept.new.items ≡ map policy_shape kept.old.items ++ filter (λ part. not (simple.is_always part || simple.is_never part)) (policy_shape part ∷ [])) }
{
    match part {
        Policy::Always | Policy::Never => Ok(()),
        part => Ok(kept.push(part)?),
    }
}

/// So many of these parts: each that is Always lowers the number by one.
#[tactic(auto, using(crate::proofs::Parts::kept_more))]
pub(crate) fn threshold(alloc: Global, k: u64, parts: Vec<Policy>) -> Result<Policy, AllocError>
    ensures { IfOk result (λ p. policy_shape p ≡ simple.threshold k (map policy_shape parts.items)) }
{
    let left = k.saturating_sub(count_always(&parts));
    let mut kept = Vec::new(alloc);
    for part in parts {
        keep(part, &mut kept)?;
    }
    chosen(alloc, left, kept)
}
