//! Tests of heights: how many elements stand on both stacks at most. Those of sane texts, which the program prints, stand in
//! `examples/rows/consensus.rows`; these texts are valid.

use crate::letters::repeated;
use crate::samples::tree_of;
use bumpalo::Bump;
use ms_height::height;
use ms_types::correctness_of;
use ms_work::Work;
use std::alloc::Global;
use std::test::Fail;

/// The height of the tree of such a text.
fn height_of(alloc: Global, form: &str) -> Result<u64, Fail> {
    let arena = Bump::new(alloc);
    let text = tree_of(alloc, &arena, form)?;
    let mut work = Work::new(alloc, text.tree())?;
    match correctness_of(text.tree()) {
        Ok(_) => Ok(height(text.tree(), &mut work)),
        Err(_) => Err("a type")?,
    }
}

/// Texts with their heights, by listing all formal satisfactions with their courses: IFDUP over an item that stays, and a
/// satisfaction that lies below what a dissatisfaction takes; thresholds; children that take more items satisfied, and ones that
/// take more dissatisfied; and a threshold below another one.
const HEIGHTS: &str = "or_d(n:0,pk(A)) 2
or_d(n:or_i(0,1),0) 2
or_d(pk(A),or_i(0,0)) 2
thresh(1,pk(A)) 2
thresh(1,pk(A),s:pk(B)) 3
thresh(1,pkh(A),a:0) 4
thresh(1,0) 0
thresh(1,0,al:and_v(vlll:1,1),a:or_i(1,llll:0)) 10
thresh(2,0,al:and_v(vlll:1,1),a:or_i(1,llll:0)) 6
thresh(3,0,al:and_v(vlll:1,1),a:or_i(1,llll:0)) 0
thresh(1,0,a:or_i(1,llll:0),al:and_v(vlll:1,1)) 10
thresh(2,0,a:or_i(1,llll:0),al:and_v(vlll:1,1)) 6
thresh(3,multi(1,A,B,C),a:or_i(1,llll:0),al:and_v(vlll:1,1),s:pk(A)) 17
thresh(4,multi(1,A,B,C),a:or_i(1,llll:0),al:and_v(vlll:1,1),s:pk(A)) 13
thresh(2,0,al:and_v(vlll:1,1),al:and_v(vll:1,1),al:and_v(vl:1,1),a:or_i(1,l:0)) 11
thresh(2,0,a:or_i(1,llll:0),a:or_i(1,lll:0),a:or_i(1,ll:0),al:1) 12
thresh(3,sha256(H),al:and_v(vlll:1,1),a:multi(1,A,B)) 9
thresh(2,thresh(1,0,al:and_v(vlll:1,1),a:or_i(1,llll:0)),a:thresh(2,0,al:1,a:or_i(1,lll:0)),s:pk(A)) 16";

/// Whether a row of texts is right.
fn has_height(alloc: Global, row: &str) -> Result<bool, Fail> {
    let (form, wanted) = row.split_once(' ').ok_or("a row")?;
    let wanted: u64 = wanted.parse()?;
    Ok(height_of(alloc, form)? == wanted)
}

#[test]
fn thresholds_reach_these_heights(rt: HostRuntime) -> Result<(), Fail> {
    for row in HEIGHTS.lines() {
        assert!(rt; has_height(rt.alloc(), row)?, "{row}");
    }
    Ok(())
}

const CHILDREN: &str =
    ",al:and_v(vl:1,1),al:and_v(vlll:1,1),a:or_i(1,ll:0),a:or_i(1,llll:0),al:1,a:0";

/// How many children of a threshold of `0` and so many times those children are satisfied, and its height, by a table of all
/// numbers of satisfied children, as the definition says it.
const MANY: [(u32, usize, u64); 11] = [
    (1, 1, 15),
    (3, 1, 16),
    (6, 1, 0),
    (4, 2, 31),
    (9, 2, 23),
    (1, 350, 3854),
    (300, 350, 4751),
    (900, 350, 5251),
    (1450, 350, 4351),
    (1750, 350, 3151),
    (1751, 350, 0),
];

#[test]
fn thousands_of_children_reach_these_heights(rt: HostRuntime) -> Result<(), Fail> {
    for (k, count, wanted) in MANY {
        assert_eq!(rt; height_of_many(rt.alloc(), k, count)?, wanted, "{k}");
    }
    Ok(())
}

fn height_of_many(alloc: Global, k: u32, count: usize) -> Result<u64, Fail> {
    let first = format!(in alloc; "thresh({k},0")?;
    let form = repeated(alloc, &first, CHILDREN, count, ")")?;
    height_of(alloc, &form)
}
