//! What rows come to, by what is known of children.
ghost use Rattle.std.specs.Prelude.{◌≡◌};
ghost use Rattle.ms_rows.specs.Reading.{Reader, by_letters, part_in, way_in, ways_in};

use crate::ways::{Argument, Part, Way, Ways};

/// A way to read rows: what the parts of a stack come to, and what is made of these.
pub trait Reading {
    /// What is known of a child.
    type Child;

    /// What a part or a way comes to.
    type Value;

    // What a value says, and what it says of each part and each way.
    ghost Meaning: { Type 0 };

    ghost meaning: { Self.Value → Meaning };

    ghost reader: { Self → Reader Self.Child Meaning };

    // What has to hold of a child, and of a part that is put together with another.
    ghost IsKnown: { Self.Child → Type 0 };

    ghost IsPart: { Self.Value → Type 0 };

    /// The satisfaction of a child.
    fn sat(&self, child: &Self::Child) -> Self::Value
        requires { IsKnown child.now }
        ensures value { meaning result ≡ (reader self.now).sat child.now }
        ensures part { IsPart result };

    /// The dissatisfaction of a child.
    fn dsat(&self, child: &Self::Child) -> Self::Value
        requires { IsKnown child.now }
        ensures value { meaning result ≡ (reader self.now).dsat child.now }
        ensures part { IsPart result };

    /// The byte 01.
    fn one(&self) -> Self::Value
        ensures value { meaning result ≡ (reader self.now).one }
        ensures part { IsPart result };

    /// The empty string.
    fn empty(&self) -> Self::Value
        ensures value { meaning result ≡ (reader self.now).empty }
        ensures part { IsPart result };

    /// No way at all.
    fn never(&self) -> Self::Value
        ensures { meaning result ≡ (reader self.now).never };

    /// A part alone.
    fn alone(&self, part: Self::Value) -> Self::Value
        requires { IsPart part }
        ensures { meaning result ≡ (reader self.now).alone (meaning part) };

    /// A part with another one on top.
    fn both(&self, below: Self::Value, above: Self::Value) -> Self::Value
        requires below { IsPart below }
        requires above { IsPart above }
        ensures { meaning result ≡ (reader self.now).both (meaning below) (meaning above) };

    /// Either of two ways.
    fn either(&self, first: Self::Value, second: Self::Value) -> Self::Value
        ensures { meaning result ≡ (reader self.now).either (meaning first) (meaning second) };
}

/// What ways come to, by what is known of the arguments.
pub fn read<R: Reading>(
    reading: &R,
    ways: &Ways<Argument>,
    x: &R::Child,
    y: &R::Child,
    z: &R::Child,
) -> R::Value
    requires x { R.IsKnown x.now }
    requires y { R.IsKnown y.now }
    requires z { R.IsKnown z.now }
    ensures { R.meaning result ≡ ways_in (by_letters (R.reader reading.now) x.now y.now z.now) ways.now }
{
    match ways {
        Ways::Never => reading.never(),
        Ways::Only(way) => read_way(reading, way, x, y, z),
        Ways::Either(first, second) => {
            let first = read_way(reading, first, x, y, z);
            let second = read_way(reading, second, x, y, z);
            reading.either(first, second)
        }
    }
}

fn read_way<R: Reading>(
    reading: &R,
    way: &Way<Argument>,
    x: &R::Child,
    y: &R::Child,
    z: &R::Child,
) -> R::Value
    requires x { R.IsKnown x.now }
    requires y { R.IsKnown y.now }
    requires z { R.IsKnown z.now }
    ensures { R.meaning result ≡ way_in (by_letters (R.reader reading.now) x.now y.now z.now) way.now }
{
    match way {
        Way::Alone(part) => reading.alone(read_part(reading, part, x, y, z)),
        Way::Both(below, above) => {
            let below = read_part(reading, below, x, y, z);
            let above = read_part(reading, above, x, y, z);
            reading.both(below, above)
        }
    }
}

fn read_part<R: Reading>(
    reading: &R,
    part: &Part<Argument>,
    x: &R::Child,
    y: &R::Child,
    z: &R::Child,
) -> R::Value
    requires x { R.IsKnown x.now }
    requires y { R.IsKnown y.now }
    requires z { R.IsKnown z.now }
    ensures value { R.meaning result ≡ part_in (by_letters (R.reader reading.now) x.now y.now z.now) part.now }
    ensures part { R.IsPart result }
{
    match part {
        Part::Sat(argument) => reading.sat(argument.of(x, y, z)),
        Part::Dsat(argument) => reading.dsat(argument.of(x, y, z)),
        Part::One => reading.one(),
        Part::Empty => reading.empty(),
    }
}
