//! When a policy is true.
ghost use Rattle.std.specs.Prelude.{◌≡◌, ◌≤◌, map};
ghost use Rattle.std.specs.List.{list_all, list_any};
ghost use Rattle.def_policy.specs.Policy.{policies_of};
ghost use Rattle.def_policy.specs.Size.{depth, HasLocks, HaveLocks, MOST_POLICY_DEPTH};
ghost use Rattle.def_policy.specs.Truth.{facts_of, how_many, is_true, truths};
ghost use Rattle.ms_policy.specs.Shape.{policy_shape};

use crate::policy::Policy;
use ms_held::Assets;

/// Whether a policy is true of assets: a key by a signature of it, a hash value by its known preimage, a timelock by
/// BIP 112's and BIP 65's test. It asks that each timelock's operand is from 1 to 2^31 - 1, and that the policy is at
/// most 514 deep. Takes no memory.
pub fn holds(policy: &Policy, assets: &Assets) -> bool
    requires locks { HasLocks (policy_shape policy.now) }
    requires shallow { depth (policy_shape policy.now) ≤ MOST_POLICY_DEPTH }
    ensures { result ≡ is_true (facts_of assets.now) (policy_shape policy.now) }
{
    is_met(policy, assets)
}

#[cycle(truth)]
fn is_met(policy: &Policy, assets: &Assets) -> bool
    requires { HasLocks (policy_shape policy.now) }
    ensures { result ≡ is_true (facts_of assets.now) (policy_shape policy.now) }
{
    match policy {
        Policy::Never => false,
        Policy::Always => true,
        Policy::Key(key) => assets.sig_of(key).is_some(),
        Policy::Older(n) => assets.holds_older(*n),
        Policy::After(n) => assets.holds_after(*n),
        Policy::Hash(value) => assets.preimage_of(value).is_some(),
        Policy::All(parts) => all_met(parts, assets),
        Policy::Any(parts) => any_met(parts, assets),
        Policy::Thresh(k, parts) => *k <= count_met(parts, assets),
    }
}

#[cycle(truth)]
fn all_met(parts: &[Policy], assets: &Assets) -> bool
    requires { HaveLocks (policies_of (map policy_shape parts.now)) }
    ensures { result ≡ list_all (λ b. b) (truths (facts_of assets.now) (policies_of (map policy_shape parts.now))) }
{
    for part in parts {
        if !is_met(part, assets) {
            return false;
        }
    }
    true
}

#[cycle(truth)]
fn any_met(parts: &[Policy], assets: &Assets) -> bool
    requires { HaveLocks (policies_of (map policy_shape parts.now)) }
    ensures { result ≡ list_any (λ b. b) (truths (facts_of assets.now) (policies_of (map policy_shape parts.now))) }
{
    for part in parts {
        if is_met(part, assets) {
            return true;
        }
    }
    false
}

#[cycle(truth)]
fn count_met(parts: &[Policy], assets: &Assets) -> u64
    requires { HaveLocks (policies_of (map policy_shape parts.now)) }
    ensures { result ≡ how_many (truths (facts_of assets.now) (policies_of (map policy_shape parts.now))) }
{
    let mut count = 0;
    for part in parts {
        if is_met(part, assets) {
            count += 1;
        }
    }
    count
}
