//! Which row a stack takes at a fragment with children, by what was found of its parts: a canonical one, as `ms_rows` has
//! them, or one that isn't. A child is `Some(true)` where it is satisfied, and `Some(false)` where it is dissatisfied; an
//! item that chooses is `Some(true)` where it is the byte 01, and `Some(false)` where it is empty; and `None` is a part
//! that isn't taken.
ghost use Rattle.std.specs.Prelude.{◌≡◌, Bool, ⊤};
ghost use Rattle.ms_audit.specs.Scaffolding.Parts.{is_dsat, reader, verdict_by, verdict_of_and_or, verdict_of_two, verdict_of_wrap, ends_two};
ghost use Rattle.ms_audit.specs.Scaffolding.Parts.{other_of_two as the_other_of_two, other_of_wrap as the_other_of_wrap};
ghost use Rattle.ms_audit.specs.Scaffolding.Walking.{verdict_of};

use crate::row::Row;
use ms_rows::Argument::{X, Y, Z};
use ms_rows::{Argument, Reading, and_or, read, two, wrap};
use ms_tree::{Two, Wrapper};

/// What was found of the item that chooses: rows are read by it and by the children.
#[derive(Drop)]
struct Chosen {
    item: Option<bool>,
}

impl Reading for Chosen {
    type Child = Option<bool>;

    type Value = bool;

    ghost Meaning = { Bool };

    ghost meaning = { λ holds. holds };

    ghost reader = { λ chosen. reader chosen.item };

    ghost IsKnown = { λ _. ⊤ };

    ghost IsPart = { λ _. ⊤ };

    fn sat(&self, child: &Option<bool>) -> bool {
        matches!(child, Some(true))
    }

    fn dsat(&self, child: &Option<bool>) -> bool {
        matches!(child, Some(false))
    }

    fn one(&self) -> bool {
        matches!(self.item, Some(true))
    }

    fn empty(&self) -> bool {
        is_empty(self.item)
    }

    fn never(&self) -> bool {
        false
    }

    fn alone(&self, part: bool) -> bool {
        part
    }

    fn both(&self, below: bool, above: bool) -> bool {
        below && above
    }

    fn either(&self, first: bool, second: bool) -> bool {
        first || second
    }
}

impl Chosen {
    /// The canonical row that reads so, or else the one that isn't canonical, by whether it satisfies the fragment.
    fn row_or(
        &self,
        row: &ms_rows::Row<Argument>,
        x: Option<bool>,
        y: Option<bool>,
        z: Option<bool>,
        other: Option<bool>,
    ) -> Option<Row>
        ensures { verdict_of result ≡ verdict_by row.now.sat row.now.dsat self.now.item x y z other }
    {
        if read(self, &row.sat, &x, &y, &z) {
            Some(Row::canonical(true))
        } else if read(self, &row.dsat, &x, &y, &z) {
            Some(Row::canonical(false))
        } else {
            other.map(|sat| Row { sat, extra: true })
        }
    }
}

/// Of `andor(X,Y,Z)`. What isn't canonical of it is what isn't of `and_v(X,Y)`.
#[tactic(auto, unfolding(crate::specs::Scaffolding::Parts::verdict_of_and_or))]
pub fn of_and_or(x: Option<bool>, y: Option<bool>, z: Option<bool>) -> Option<Row>
    ensures { verdict_of result ≡ verdict_of_and_or x y z }
{
    Chosen { item: None }.row_or(&and_or(X, Y, Z), x, y, z, other_of_two(Two::AndV, x, y))
}

/// Of a fragment with two children.
#[tactic(auto, unfolding(crate::specs::Scaffolding::Parts::verdict_of_two))]
pub fn of_two(kind: Two, item: Option<bool>, x: Option<bool>, z: Option<bool>) -> Option<Row>
    ensures { verdict_of result ≡ verdict_of_two kind item x z }
{
    Chosen { item }.row_or(&two(kind, X, Z), x, None, z, other_of_two(kind, x, z))
}

/// Whether the first of two children satisfies the fragment alone.
pub fn ends(kind: Two, first: bool) -> bool
    ensures { result ≡ ends_two kind first }
{
    read(
        &Chosen { item: None },
        &two(kind, X, Z).sat,
        &Some(first),
        &None,
        &None,
    )
}

/// Whether there is an item that chooses, and it is empty.
pub fn is_empty(item: Option<bool>) -> bool
    ensures { result ≡ is_dsat item }
{
    matches!(item, Some(false))
}

/// Of a fragment behind a wrapper.
#[tactic(auto, unfolding(crate::specs::Scaffolding::Parts::verdict_of_wrap))]
pub fn of_wrap(wrapper: Wrapper, item: Option<bool>, x: Option<bool>) -> Option<Row>
    ensures { verdict_of result ≡ verdict_of_wrap wrapper item x }
{
    Chosen { item }.row_or(&wrap(wrapper, X), x, None, None, other_of_wrap(wrapper, x))
}

/// The rows of two children that aren't canonical, by whether they satisfy the fragment: of `and_v` and `and_b` one child
/// is satisfied and the other one isn't, by `and_v` the first one; of `or_b` both are satisfied.
fn other_of_two(kind: Two, x: Option<bool>, z: Option<bool>) -> Option<bool>
    ensures { result ≡ the_other_of_two kind x z }
{
    match (kind, x, z) {
        (Two::AndV | Two::AndB, Some(true), Some(false)) | (Two::AndB, Some(false), Some(true)) =>
            Some(false),
        (Two::OrB, Some(true), Some(true)) => Some(true),
        _ => None,
    }
}

/// The row of `j` that isn't canonical: X is dissatisfied, by a top that isn't empty.
fn other_of_wrap(wrapper: Wrapper, x: Option<bool>) -> Option<bool>
    ensures { result ≡ the_other_of_wrap wrapper x }
{
    match (wrapper, x) {
        (Wrapper::J, Some(false)) => Some(false),
        _ => None,
    }
}
