//! The rows of the fragments with children.
ghost use Rattle.std.specs.Prelude.{◌≡◌};
ghost use Rattle.def_table.specs.Table as table;
ghost use Rattle.ms_rows.specs.Written as written;
ghost use Rattle.ms_rows.specs.Written.{known, IsRow};
ghost use Rattle.ms_rows.specs.declared.ways.Part.TheVariants as parts;
ghost use Rattle.ms_rows.specs.declared.ways.Way.TheVariants as way;
ghost use Rattle.ms_rows.specs.declared.ways.Ways.TheVariants as ways;

use crate::ways::{Part, Row, Way, Ways};
use ms_tree::{Two, Wrapper};

/// The row of `andor(X,Y,Z)`.
pub fn and_or<P: Copy>(x: P, y: P, z: P) -> Row<P>
    ensures { IsRow result (table.and_or_row written.table (known x) (known y) (known z)) }
{
    Row {
        sat: Ways::Either(Way::Both(Part::Sat(y), Part::Sat(x)), without_x(x, z)),
        dsat: Ways::Only(neither(x, z)),
    }
}

/// The row of a fragment with two children.
pub fn two<P: Copy>(kind: Two, x: P, z: P) -> Row<P>
    ensures { IsRow result (written.two_row written.table kind (known x) (known z)) }
{
    let with_both = Way::Both(Part::Sat(z), Part::Sat(x));
    match kind {
        Two::AndV => Row {
            sat: Ways::Only(with_both),
            dsat: Ways::Never,
        },
        Two::AndB => Row {
            sat: Ways::Only(with_both),
            dsat: Ways::Only(neither(x, z)),
        },
        Two::OrB => Row {
            sat: Ways::Either(Way::Both(Part::Dsat(z), Part::Sat(x)), without_x(x, z)),
            dsat: Ways::Only(neither(x, z)),
        },
        Two::OrC => Row {
            sat: Ways::Either(Way::Alone(Part::Sat(x)), without_x(x, z)),
            dsat: Ways::Never,
        },
        Two::OrD => Row {
            sat: Ways::Either(Way::Alone(Part::Sat(x)), without_x(x, z)),
            dsat: Ways::Only(neither(x, z)),
        },
        Two::OrI => Row {
            sat: chosen(Part::Sat(x), Part::Sat(z)),
            dsat: chosen(Part::Dsat(x), Part::Dsat(z)),
        },
    }
}

/// The row of a fragment behind a wrapper.
pub fn wrap<P: Copy>(wrapper: Wrapper, x: P) -> Row<P>
    ensures { IsRow result (written.wrap_row written.table wrapper (known x)) }
{
    let sat = Ways::Only(Way::Alone(Part::Sat(x)));
    match wrapper {
        Wrapper::A | Wrapper::S | Wrapper::C | Wrapper::N => Row {
            sat,
            dsat: Ways::Only(Way::Alone(Part::Dsat(x))),
        },
        Wrapper::D => Row {
            sat: Ways::Only(Way::Both(Part::Sat(x), Part::One)),
            dsat: Ways::Only(Way::Alone(Part::Empty)),
        },
        Wrapper::V => Row {
            sat,
            dsat: Ways::Never,
        },
        Wrapper::J => Row {
            sat,
            dsat: Ways::Only(Way::Alone(Part::Empty)),
        },
    }
}

/// X is dissatisfied and Z satisfied.
fn without_x<P: Copy>(x: P, z: P) -> Way<P>
    ensures { result ≡ way.Both (parts.Sat z) (parts.Dsat x) }
{
    Way::Both(Part::Sat(z), Part::Dsat(x))
}

/// Both are dissatisfied.
fn neither<P: Copy>(x: P, z: P) -> Way<P>
    ensures { result ≡ way.Both (parts.Dsat z) (parts.Dsat x) }
{
    Way::Both(Part::Dsat(z), Part::Dsat(x))
}

/// The first part where the item on top is `1`, and the second one where it is empty.
fn chosen<P: Copy>(first: Part<P>, second: Part<P>) -> Ways<P>
    ensures { result ≡ ways.Either (way.Both first parts.One) (way.Both second parts.Empty) }
{
    Ways::Either(Way::Both(first, Part::One), Way::Both(second, Part::Empty))
}
