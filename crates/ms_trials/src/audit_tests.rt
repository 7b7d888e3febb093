//! Tests of what is a trail of a witness, and what isn't. Audits are rows of `examples/rows/audit.rows`.

use crate::samples::{signed_by, stack_of, tree_of, valid_of};
use bumpalo::Bump;
use ms_audit::{Step, check_trail};
use ms_oracle::{Locks, SigCheck, member};
use std::alloc::Global;
use std::test::Fail;

const LOCKS: Locks = Locks {
    version: 2,
    sequence: 0,
    locktime: 0,
};

// The steps of `or_b(pk(A),s:pk(B))` where both keys sign.
fn both_keys() -> [Step; 6] {
    let sat = |node: u32| Step {
        node,
        sat: true,
        extra: node == 5,
    };
    [sat(0), sat(1), sat(2), sat(3), sat(4), sat(5)]
}

// Whether these are the steps of these items, bottom first.
fn checked(
    alloc: Global,
    form: &str,
    trail: &[Step],
    signers: &str,
    items: &str,
) -> Result<bool, Fail> {
    let arena = Bump::new(alloc);
    let text = tree_of(alloc, &arena, form)?;
    let valid = valid_of(alloc, text.tree())?;
    let stack = stack_of(alloc, items)?;
    if stack.len() > 10 {
        return Err("too many items")?;
    }
    let pairs = signed_by(alloc, signers)?;
    let table = pairs.as_slice();
    let sigs = SigCheck::new(table, |key: &[u8], sig: &[u8]| member(table, key, sig));
    Ok(check_trail(alloc, &valid.tree, trail, &stack, &LOCKS, &sigs)?)
}

// Texts, keys that sign, items bottom first, how many of the steps of both keys are told, and whether these are the steps: of the
// text's own, of another stack, of one with an item more, and of another tree; without the root's step, and without any; and
// where a key doesn't sign.
const TRAILS: &str = "or_b(pk(A),s:pk(B)) AB ba 6 yes
or_b(pk(A),s:pk(B)) AB -a 6 no
or_b(pk(A),s:pk(B)) AB -ba 6 no
and_b(pk(A),s:pk(B)) AB ba 6 no
or_b(pk(A),s:pk(B)) AB ba 5 no
or_b(pk(A),s:pk(B)) AB ba 0 no
or_b(pk(A),s:pk(B)) A ba 6 no";

// Whether a row of these is right.
fn is_checked(alloc: Global, row: &str) -> Result<bool, Fail> {
    let mut words = row.split(' ');
    let form = words.next().ok_or("a text")?;
    let signers = words.next().ok_or("keys")?;
    let items = words.next().ok_or("items")?;
    let steps = both_keys();
    let count: usize = words.next().ok_or("a number")?.parse()?;
    let trail = &steps[..count.min(6)];
    let wanted = words.next() == Some("yes");
    Ok(checked(alloc, form, trail, signers, items)? == wanted)
}

#[test]
fn what_is_no_trail(rt: HostRuntime) -> Result<(), Fail> {
    for row in TRAILS.lines() {
        assert!(rt; is_checked(rt.alloc(), row)?, "{row}");
    }
    Ok(())
}
