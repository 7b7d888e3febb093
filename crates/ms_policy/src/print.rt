//! The printed form of a policy.
ghost use Rattle.std.specs.Prelude.{◌≡◌, ◌≤◌, [], ◌++◌, codes, map, IfOk, OnOk};
ghost use Rattle.std.specs.String.{string_bytes};
ghost use Rattle.def_policy.specs.Policy.{policies_of};
ghost use Rattle.def_policy.specs.Print.{printed, printed_parts};
ghost use Rattle.def_policy.specs.Size.{depth, MOST_POLICY_DEPTH};
ghost use Rattle.ms_policy.specs.Shape.{policy_shape};

use crate::policy::Policy;
use ms_print::{name_of_hash, print_call, print_lock, print_number};
use std::alloc::{AllocError, Global};

/// The printed form of a policy: `never`, `always`, `key(K)`, `older(n)`, `after(n)`, the four hash locks, and `all`, `any`
/// and `thresh` with their parts in parentheses. It asks that the policy is at most 514 deep. The only refusal is want of
/// memory.
pub fn print_policy(alloc: Global, policy: &Policy) -> Result<String, AllocError>
    requires { depth (policy_shape policy.now) ≤ MOST_POLICY_DEPTH }
    ensures { IfOk result (λ text. string_bytes text ≡ printed (policy_shape policy.now)) }
{
    let mut out = String::new(alloc);
    print_one(alloc, &mut out, policy)?;
    Ok(out)
}

#[cycle(print)]
fn print_one(alloc: Global, out: &mut String, policy: &Policy) -> Result<(), AllocError>
    ensures { OnOk result (string_bytes out.new ≡ string_bytes out.old ++ printed (policy_shape policy.now)) }
{
    match policy {
        Policy::Never => out.push_str("never"),
        Policy::Always => out.push_str("always"),
        Policy::Key(key) => print_call(alloc, out, "key", key.as_bytes()),
        Policy::Older(n) => print_lock(alloc, out, "older", *n),
        Policy::After(n) => print_lock(alloc, out, "after", *n),
        Policy::Hash(value) => {
            print_call(alloc, out, name_of_hash(value.kind()), value.as_bytes())
        }
        Policy::All(parts) => {
            out.push_str("all(")?;
            print_parts(alloc, out, parts)?;
            out.push_str(")")
        }
        Policy::Any(parts) => {
            out.push_str("any(")?;
            print_parts(alloc, out, parts)?;
            out.push_str(")")
        }
        Policy::Thresh(k, parts) => {
            out.push_str("thresh(")?;
            print_number(alloc, out, *k)?;
            print_others(alloc, out, parts)?;
            out.push_str(")")
        }
    }
}

/// Parts with commas between them.
#[cycle(print)]
fn print_parts(alloc: Global, out: &mut String, parts: &[Policy]) -> Result<(), AllocError>
    ensures { OnOk result (string_bytes out.new ≡ string_bytes out.old ++ printed_parts [] (policies_of (map policy_shape parts.now))) }
{
    let mut mark = "";
    for part in parts {
        out.push_str(mark)?;
        print_one(alloc, out, part)?;
        mark = ",";
    }
    Ok(())
}

/// Parts, each behind a comma.
#[cycle(print)]
fn print_others(alloc: Global, out: &mut String, parts: &[Policy]) -> Result<(), AllocError>
    ensures { OnOk result (string_bytes out.new ≡ string_bytes out.old ++ printed_parts (codes ",") (policies_of (map policy_shape parts.now))) }
{
    for part in parts {
        out.push_str(",")?;
        print_one(alloc, out, part)?;
    }
    Ok(())
}
