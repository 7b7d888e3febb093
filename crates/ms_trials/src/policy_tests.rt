//! Tests of when a policy is met. What policies of texts are, with how few keys suffice, stands in `examples/rows/policy.rows`.

use crate::samples::{assets_of, sane_of, tree_of};
use bumpalo::Bump;
use ms_oracle::Locks;
use ms_policy::{holds, policy_of};
use std::alloc::Global;
use std::test::Fail;

/// Sane texts, the keys that sign with `x` for three preimages or `-`, a sequence number and a lock time, and whether the policy
/// is met: timelocks from their operand on, and a threshold by so many parts.
const ROWS: &str = "or_d(pk(A),and_v(v:pkh(B),older(144))) A 0 0 yes
or_d(pk(A),and_v(v:pkh(B),older(144))) B 144 0 yes
or_d(pk(A),and_v(v:pkh(B),older(144))) B 143 0 no
or_d(pk(A),and_v(v:pkh(B),older(144))) - 144 0 no
and_v(v:pk(A),after(20)) A 0 20 yes
and_v(v:pk(A),after(20)) A 0 19 no
and_v(v:pk(A),after(20)) - 0 20 no
thresh(2,j:and_v(v:sha256(X),and_v(v:sha256(Y),and_v(v:sha256(Z),1))),s:pk(A),s:pk(B)) Ax 0 0 yes
thresh(2,j:and_v(v:sha256(X),and_v(v:sha256(Y),and_v(v:sha256(Z),1))),s:pk(A),s:pk(B)) A 0 0 no
thresh(2,j:and_v(v:sha256(X),and_v(v:sha256(Y),and_v(v:sha256(Z),1))),s:pk(A),s:pk(B)) AB 0 0 yes
thresh(2,j:and_v(v:sha256(X),and_v(v:sha256(Y),and_v(v:sha256(Z),1))),s:pk(A),s:pk(B)) x 0 0 no
thresh(2,j:and_v(v:sha256(X),and_v(v:sha256(Y),and_v(v:sha256(Z),1))),s:pk(A),s:pk(B)) Cx 0 0 no";

/// Whether the policy of a sane text is met.
fn is_met(alloc: Global, form: &str, locks: Locks, signed: &str) -> Result<bool, Fail> {
    let arena = Bump::new(alloc);
    let text = tree_of(alloc, &arena, form)?;
    let sane = sane_of(alloc, text.tree())?;
    let policy = policy_of(alloc, &sane.valid.tree)?;
    let assets = assets_of(alloc, locks, signed)?;
    Ok(holds(&policy, &assets))
}

/// Whether a row is right.
fn is_right(alloc: Global, row: &str) -> Result<bool, Fail> {
    let mut words = row.split(' ');
    let form = words.next().ok_or("a text")?;
    let signed = words.next().ok_or("keys")?;
    let locks = Locks {
        version: 2,
        sequence: words.next().ok_or("a number")?.parse()?,
        locktime: words.next().ok_or("a number")?.parse()?,
    };
    let signed = if signed == "-" { "" } else { signed };
    let wanted = words.next() == Some("yes");
    Ok(is_met(alloc, form, locks, signed)? == wanted)
}

#[test]
fn policies_are_met_by_assets(rt: HostRuntime) -> Result<(), Fail> {
    for row in ROWS.lines() {
        assert!(rt; is_right(rt.alloc(), row)?, "{row}");
    }
    Ok(())
}
