//! What is printed of a sane tree's abstract policy, and of how many keys have to sign.
ghost use Rattle.std.specs.Prelude.{◌≡◌, IfOk};
ghost use Rattle.std.specs.String.{string_bytes};
ghost use Rattle.def_sane.specs.Unfit.{IsSane};
ghost use Rattle.ms_tree.specs.Shape.{shape};
ghost use Rattle.def_answer.specs.Policy.{number_or_none, policy_report as the_policy_report};

use crate::lines::push_line;
use ms_policy::{least_keys, policy_of, print_policy};
use ms_sane::SaneTree;
use std::alloc::{AllocError, Global};

/// The policy of a tree that is sane by policy, and the least number of keys that have to sign where every hash and lock is met: what
/// `policy` prints. `AllocError` comes only where memory is wanting.
pub fn policy_report(alloc: Global, sane: &SaneTree<'_>) -> Result<String, AllocError>
    requires { IsSane (shape sane.now.valid.tree) }
    ensures { IfOk result (λ report. string_bytes report ≡ the_policy_report (shape sane.now.valid.tree)) }
{
    let policy = policy_of(alloc, &sane.valid.tree)?;
    let least = least_keys(alloc, &policy)?;
    let mut report = String::new(alloc);
    push_line(&mut report, "policy ", &print_policy(alloc, &policy)?)?;
    push_line(&mut report, "keys ", &number_text(alloc, least)?)?;
    Ok(report)
}

/// A number in decimal, or that there is none.
fn number_text(alloc: Global, number: Option<u64>) -> Result<String, AllocError>
    ensures { IfOk result (λ text. string_bytes text ≡ number_or_none number) }
{
    match number {
        Some(n) => format!(in alloc; "{n}"),
        None => String::from_str(alloc, "none"),
    }
}
