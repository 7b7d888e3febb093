//! How high a row of the satisfaction table goes.
ghost use Rattle.std.specs.Prelude.{◌≡◌, Option};
ghost use Rattle.def_height.specs.declared.Highest as declared;
ghost use Rattle.ms_height.specs.Scaffolding.Low.{IsLow, IsLowHeights, IsStorable};
ghost use Rattle.ms_height.specs.Scaffolding.Row as model;

use crate::highest::{Heights, at_least, both, either, only};
use def_height::Highest;
use ms_rows::{Argument, Reading, Row, read};
use ms_tree::{Two, Wrapper};

/// What the Script of a fragment adds beside its parts (BIP 379, translation), in elements.
#[derive(Drop)]
pub struct Script {
    /// Those on the items of the first part when it begins: the copy by DUP of `d:`, the number by SIZE of `j:`.
    before: u32,
    /// Those that the first part leaves, which stay while the second one runs.
    left: u32,
    /// Those at one moment behind a part alone: both copies by IFDUP of `or_d`.
    after: u32,
}

impl Script {
    /// Of a fragment that adds none.
    pub fn bare() -> Script
        ensures { result ≡ model.bare }
    {
        Script {
            before: 0,
            left: 0,
            after: 0,
        }
    }

    /// Of a fragment with two children.
    pub fn of_two(kind: Two) -> Script
        ensures { result ≡ model.of_two kind }
    {
        match kind {
            Two::AndB | Two::OrB => Script {
                left: 1,
                ..Script::bare()
            },
            Two::OrD => Script {
                after: 2,
                ..Script::bare()
            },
            Two::AndV | Two::OrC | Two::OrI => Script::bare(),
        }
    }

    /// Of a wrapper.
    pub fn of_wrap(wrapper: Wrapper) -> Script
        ensures { result ≡ model.of_wrap wrapper }
    {
        match wrapper {
            Wrapper::D => Script {
                before: 1,
                left: 1,
                ..Script::bare()
            },
            Wrapper::J => Script {
                before: 1,
                ..Script::bare()
            },
            Wrapper::A | Wrapper::S | Wrapper::C | Wrapper::V | Wrapper::N => Script::bare(),
        }
    }
}

impl Reading for Script {
    type Child = Heights;

    type Value = Option<Highest>;

    ghost Meaning = { Option declared.Highest };

    ghost meaning = { λ found. found };

    ghost reader = { model.reader };

    ghost IsKnown = { IsLowHeights };

    ghost IsPart = { IsLow };

    fn sat(&self, child: &Heights) -> Option<Highest> {
        child.sat
    }

    fn dsat(&self, child: &Heights) -> Option<Highest> {
        child.dsat
    }

    fn one(&self) -> Option<Highest> {
        only(1, 1)
    }

    fn empty(&self) -> Option<Highest> {
        only(1, 1)
    }

    fn never(&self) -> Option<Highest> {
        None
    }

    fn alone(&self, part: Option<Highest>) -> Option<Highest> {
        at_least(self.after.into(), begun(self.before, part))
    }

    fn both(&self, below: Option<Highest>, above: Option<Highest>) -> Option<Highest> {
        both(self.left, begun(self.before, above), below)
    }

    fn either(&self, first: Option<Highest>, second: Option<Highest>) -> Option<Highest> {
        either(first, second)
    }
}

/// A part with so many elements on its items when it begins.
fn begun(elements: u32, part: Option<Highest>) -> Option<Highest>
    requires { IsLow part }
    ensures begun { result ≡ model.begun elements part }
    ensures storable { IsStorable result }
{
    if elements == 0 {
        return part;
    }
    both(0, only(0, elements.into()), part)
}

/// How high a row goes, where its arguments go so high.
pub fn of_row(
    script: &Script,
    row: &Row<Argument>,
    x: &Heights,
    y: &Heights,
    z: &Heights,
) -> Heights
    requires x { IsLowHeights x.now }
    requires y { IsLowHeights y.now }
    requires z { IsLowHeights z.now }
    ensures { result ≡ model.of_row script.now x.now y.now z.now row.now }
{
    Heights {
        sat: read(script, &row.sat, x, y, z),
        dsat: read(script, &row.dsat, x, y, z),
    }
}
