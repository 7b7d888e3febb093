//! Tests of sizes of trees, which the programs don't print.
ghost use Rattle.def_tree.specs.InRange.{IsInRange};
ghost use Rattle.ms_tree.specs.Shape.{shape};

use bumpalo::Bump;
use ms_tree::*;
use std::test::Fail;

/// Nodes, measure and depth.
fn size(tree: &Tree<'_>) -> (u32, u32, u32)
    requires { IsInRange (shape tree.now) }
{
    (tree.nodes(), tree.measure(), tree.depth())
}

#[test]
fn trees_have_these_sizes(rt: HostRuntime) -> Result<(), Fail> {
    let arena = Bump::new(rt.alloc());
    let one = leaf(&arena, Leaf::One)?;
    let x = wrap(&arena, Wrapper::N, one)?;
    let zero = leaf(&arena, Leaf::Zero)?;
    assert_eq!(rt; size(&zero), (1, 1, 1));
    let either = two(&arena, Two::OrI, x, zero)?;
    assert_eq!(rt; size(&either), (4, 4, 3));
    Ok(())
}

#[test]
fn lists_have_these_sizes(rt: HostRuntime) -> Result<(), Fail> {
    let alloc = rt.alloc();
    let arena = Bump::new(alloc);
    let key = Key::from_bytes(&[0x02; 33]).ok_or("a key")?;
    let mut keys = Vec::new(alloc);
    keys.push(key)?;
    keys.push(key)?;
    let tree = multi(&arena, 1, keys)?;
    assert_eq!(rt; size(&tree), (1, 3, 1));
    Ok(())
}
