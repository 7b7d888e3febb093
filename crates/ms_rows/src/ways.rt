//! Ways to satisfy or to dissatisfy a fragment.
ghost use Rattle.std.specs.Prelude.{◌≡◌};
ghost use Rattle.ms_rows.specs.Reading.{by_letter};

/// An argument of a fragment, by the table's letter: a wrapper's is X, and the second of two is Z.
#[derive(Clone, Copy)]
pub enum Argument {
    /// The first.
    X,
    /// The second of three.
    Y,
    /// The last of two or three.
    Z,
}

impl Argument {
    /// What is known of the argument with this letter.
    pub fn of<'p, P>(self, x: &'p P, y: &'p P, z: &'p P) -> &'p P
        ensures { result.now ≡ by_letter x.now y.now z.now self }
    {
        match self {
            Argument::X => x,
            Argument::Y => y,
            Argument::Z => z,
        }
    }
}

/// A part of a stack: what satisfies or dissatisfies a child, or an item.
#[derive(Clone, Copy)]
pub enum Part<P> {
    /// The satisfaction of a child.
    Sat(P),
    /// The dissatisfaction of a child.
    Dsat(P),
    /// The byte 01, which takes the first branch.
    One,
    /// The empty string, which takes the second branch.
    Empty,
}

/// Of which parts a stack is made.
#[derive(Clone, Copy)]
pub enum Way<P> {
    /// Of one part.
    Alone(Part<P>),
    /// Of two, the second one on top of the first.
    Both(Part<P>, Part<P>),
}

/// The ways to do one thing, of which there are at most two.
#[derive(Clone, Copy)]
pub enum Ways<P> {
    /// There is no way.
    Never,
    /// There is one.
    Only(Way<P>),
    /// There are two, in the table's order.
    Either(Way<P>, Way<P>),
}

/// The row of a fragment: the ways to satisfy and to dissatisfy it that are canonical.
#[derive(Clone, Copy)]
pub struct Row<P> {
    /// The ways to satisfy it.
    pub sat: Ways<P>,
    /// The ways to dissatisfy it.
    pub dsat: Ways<P>,
}
