//! The least number of keys that have to sign.
ghost use Rattle.std.specs.Prelude.{◌≡◌, ◌≤◌, IfOk, map};
ghost use Rattle.def_policy.specs.Keys.{AreLeastKeys, HasDistinctKeys};
ghost use Rattle.def_policy.specs.Policy.{policies_of};
ghost use Rattle.def_policy.specs.Size.{size, size_of, depth, MOST_POLICIES, MOST_POLICY_DEPTH};
ghost use Rattle.ms_policy.specs.Scaffolding.Cost.{cost, costs, least_sum};
ghost use Rattle.ms_policy.specs.Shape.{policy_shape};
ghost use Rattle.ms_choice.specs.Sums.{total};

use crate::policy::Policy;
use std::alloc::{AllocError, Global};

/// The least number of keys that have to sign where every hash and lock is met, or `None` exactly where no keys make the
/// policy true. It asks that no key stands twice in the policy, that at most 262,144 policies are in it, itself and all
/// parts of parts counted, and that it is at most 514 deep. The only refusal is want of memory.
pub fn least_keys(alloc: Global, policy: &Policy) -> Result<Option<u64>, AllocError>
    requires distinct { HasDistinctKeys (policy_shape policy.now) }
    requires few { size (policy_shape policy.now) ≤ MOST_POLICIES }
    requires shallow { depth (policy_shape policy.now) ≤ MOST_POLICY_DEPTH }
    ensures { IfOk result (λ n. AreLeastKeys (policy_shape policy.now) n) }
{
    least(alloc, policy)
}

#[cycle(least)]
fn least(alloc: Global, policy: &Policy) -> Result<Option<u64>, AllocError>
    requires { size (policy_shape policy.now) ≤ MOST_POLICIES }
    ensures { IfOk result (λ n. n ≡ cost (policy_shape policy.now)) }
{
    match policy {
        Policy::Never => Ok(None),
        Policy::Key(_) => Ok(Some(1)),
        Policy::Always | Policy::Older(_) | Policy::After(_) | Policy::Hash(_) => Ok(Some(0)),
        Policy::All(parts) => least_of(alloc, parts.len() as u64, parts),
        Policy::Any(parts) => least_of(alloc, 1, parts),
        Policy::Thresh(k, parts) => least_of(alloc, *k, parts),
    }
}

/// The least number for so many of the parts: the sum of the least numbers of single ones.
#[cycle(least)]
fn least_of(alloc: Global, k: u64, parts: &[Policy]) -> Result<Option<u64>, AllocError>
    requires { size_of (policies_of (map policy_shape parts.now)) ≤ MOST_POLICIES }
    ensures { IfOk result (λ n. n ≡ least_sum k (costs (policies_of (map policy_shape parts.now)))) }
{
    let mut found = Vec::new(alloc);
    for part in parts {
        if let Some(cost) = least(alloc, part)? {
            found.push(cost)?;
        }
    }
    Ok(sum_of_least(&mut found, k))
}

/// The sum of the k least numbers, or `None` where there are fewer. It sorts them.
fn sum_of_least(numbers: &mut [u64], k: u64) -> Option<u64>
    requires { total (λ n. n) numbers.old ≤ MOST_POLICIES }
    ensures { result ≡ least_sum k numbers.old }
{
    if (numbers.len() as u64) < k {
        return None;
    }
    numbers.sort_unstable();
    Some(sum_of(&numbers[..k as usize]))
}

fn sum_of(numbers: &[u64]) -> u64
    requires { total (λ n. n) numbers.now ≤ MOST_POLICIES }
    ensures { result ≡ total (λ n. n) numbers.now }
{
    let mut sum = 0;
    for n in numbers {
        sum += *n;
    }
    sum
}
