//! Tests of how often a run asks for a signature. What runs come to are rows of `examples/rows/run.rows`.

use crate::letters::filled;
use crate::samples::{signed_by, stack_of};
use ms_interp::run;
use ms_oracle::{Locks, SigCheck, member};
use std::alloc::Global;
use std::cell::Cell;
use std::test::Fail;

const LOCKS: Locks = Locks {
    version: 2,
    sequence: 0,
    locktime: 0,
};

// How often a run asks, of a Script in digits on these items, bottom first, where three keys sign; and whether it is accepted.
fn asked(alloc: Global, script: &str, items: &str) -> Result<(u32, bool), Fail> {
    let digits = filled(alloc, script)?;
    let script = hex::decode(alloc, digits.as_str()).ok().ok_or("digits")?;
    let stack = stack_of(alloc, items)?;
    if stack.len() > 3 {
        return Err("other items")?;
    }
    let pairs = signed_by(alloc, "CBA")?;
    let table = pairs.as_slice();
    let asked = Cell::new(0_u32);
    let sigs = SigCheck::new(table, |key: &[u8], sig: &[u8]| {
        asked.set(asked.get().saturating_add(1));
        member(table, key, sig)
    });
    let is_accepted = run(alloc, &script, &stack, &LOCKS, &sigs).is_ok();
    Ok((asked.get(), is_accepted))
}

#[test]
fn signatures_are_tried_from_the_last_key(rt: HostRuntime) -> Result<(), Fail> {
    // The last key with the last signature, then the other two with the first one; and an empty signature.
    let cases = [
        ("5221A21B21C53ae", "-ac", (3, true)),
        ("21Aac", "-", (0, false)),
    ];
    for (script, items, wanted) in cases {
        assert_eq!(rt; asked(rt.alloc(), script, items)?, wanted);
    }
    Ok(())
}
