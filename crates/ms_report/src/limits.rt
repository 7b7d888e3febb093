//! The limits of a tree, and the lines of them.
ghost use Rattle.std.specs.Prelude.{◌≡◌, IfOk};
ghost use Rattle.std.specs.String.{string_bytes};
ghost use Rattle.def_sane.specs.declared.Rules.TheVariants.{Consensus};
ghost use Rattle.ms_sane.specs.Same.{IsSame};
ghost use Rattle.ms_tree.specs.Shape.{shape};
ghost use Rattle.def_answer.specs.Lines.{limits_line as the_limits_line, limits_line_under};
ghost use Rattle.ms_report.specs.Bounds.{bounds_of as the_bounds_of, bounds_line as the_bounds_line};

use ms_height::height;
use ms_sane::{Limits, Rules, ValidTree};
use std::alloc::{AllocError, Global};

/// What is told of the limits of a tree.
#[derive(Clone, Copy, Debug, PartialEq, Eq)]
pub struct Bounds {
    /// The limits.
    pub limits: Limits,
    /// The height, where nothing else bounds the items: by the rules of consensus.
    pub height: Option<u64>,
}

/// What is told of the limits of a tree by the rules by which it is valid. Takes no memory.
pub fn bounds_of(valid: &mut ValidTree<'_>) -> Bounds
    ensures bounds { result ≡ the_bounds_of valid.old.rules (shape valid.old.tree) }
    ensures same { IsSame valid.old valid.new }
{
    let tree = valid.tree;
    let limits = valid.limits;
    match valid.rules {
        Rules::Policy => Bounds {
            limits,
            height: None,
        },
        Rules::Consensus => Bounds {
            limits,
            height: Some(height(&tree, &mut valid.work)),
        },
    }
}

/// The line of what is told of a tree's limits. `AllocError` comes only where memory is wanting.
pub fn bounds_line(alloc: Global, bounds: Bounds) -> Result<String, AllocError>
    ensures { IfOk result (λ text. string_bytes text ≡ the_bounds_line bounds) }
{
    match bounds.height {
        None => limits_line(alloc, bounds.limits),
        Some(height) => height_line(alloc, bounds.limits, height),
    }
}

/// The line of limits and a height.
fn height_line(alloc: Global, limits: Limits, height: u64) -> Result<String, AllocError>
    ensures { IfOk result (λ text. string_bytes text ≡ limits_line_under Consensus limits height) }
{
    let Limits {
        size,
        ops,
        items,
        weight,
    } = limits;
    format!(in alloc;
        "limits size {size} ops {ops} items {items} weight {weight} height {height}\n"
    )
}

/// The line of limits. `AllocError` comes only where memory is wanting.
pub fn limits_line(alloc: Global, limits: Limits) -> Result<String, AllocError>
    ensures { IfOk result (λ text. string_bytes text ≡ the_limits_line limits) }
{
    let Limits {
        size,
        ops,
        items,
        weight,
    } = limits;
    format!(in alloc; "limits size {size} ops {ops} items {items} weight {weight}\n")
}
