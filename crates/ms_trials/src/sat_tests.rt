//! Tests of the least weights of satisfactions and dissatisfactions. What is chosen are rows of `examples/rows/satisfy.rows`.

use crate::samples::{assets_of, tree_of, valid_of};
use bumpalo::Bump;
use ms_oracle::Locks;
use ms_sat::{Costs, costs};
use std::alloc::Global;
use std::test::Fail;

const LOCKS: Locks = Locks {
    version: 2,
    sequence: 0,
    locktime: 0,
};

/// Valid texts, the keys that sign, with `x` for three preimages, and the least weights of a satisfaction and of a
/// dissatisfaction, or `none`.
const WEIGHTS: &str = "multi(2,A,B,C) CBAx 144 3
multi(2,A,B,C) Cx none 3
thresh(2,j:and_v(v:sha256(X),and_v(v:sha256(Y),and_v(v:sha256(Z),1))),s:pk(A),s:pk(B)) ABx 146 3
and_v(v:pk(B),or_i(pk(A),and_v(v:sha256(X),and_v(v:sha256(Y),sha256(Z))))) ABx 147 none
thresh(1,pk(A),s:pk(B)) BA 73 2
andor(pk(A),pk(B),pk(C)) ABC 72 2
andor(pk(A),pk(B),pk(C)) AB 145 2";

/// The least weights of a valid text.
fn costs_of(alloc: Global, form: &str, signed: &str) -> Result<Costs, Fail> {
    let arena = Bump::new(alloc);
    let text = tree_of(alloc, &arena, form)?;
    let mut valid = valid_of(alloc, text.tree())?;
    let assets = assets_of(alloc, LOCKS, signed)?;
    Ok(costs(&mut valid, &assets))
}

/// Whether a row is right.
fn is_right(alloc: Global, row: &str) -> Result<bool, Fail> {
    let mut words = row.split(' ');
    let form = words.next().ok_or("a text")?;
    let signed = words.next().ok_or("keys")?;
    let wanted = Costs {
        sat: words.next().ok_or("a weight")?.parse().ok(),
        dsat: words.next().ok_or("a weight")?.parse().ok(),
    };
    Ok(costs_of(alloc, form, signed)? == wanted)
}

#[test]
fn satisfactions_have_least_weights(rt: HostRuntime) -> Result<(), Fail> {
    for row in WEIGHTS.lines() {
        assert!(rt; is_right(rt.alloc(), row)?, "{row}");
    }
    Ok(())
}
