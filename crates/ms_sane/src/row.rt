//! What a row of the satisfaction table takes at most.
ghost use Rattle.std.specs.Prelude.{Option};
ghost use Rattle.def_limits.specs.Formal as formal;
ghost use Rattle.ms_sane.specs.Scaffolding.Takes.{taken, IsLightMost, IsLightOption};
ghost use Rattle.ms_sane.specs.Scaffolding.Most.{reader, IsOfRow};

use crate::takes::{Most, Takes, both, either};
use ms_rows::{Argument, Reading, Row, read};

/// Reads rows by what is taken at most.
struct Takings;

impl Reading for Takings {
    type Child = Most;

    type Value = Option<Takes>;

    ghost Meaning = { Option formal.Takes };

    ghost meaning = { taken };

    ghost reader = { λ _. reader };

    ghost IsKnown = { IsLightMost };

    ghost IsPart = { IsLightOption };

    fn sat(&self, child: &Most) -> Option<Takes> {
        child.sat
    }

    fn dsat(&self, child: &Most) -> Option<Takes> {
        child.dsat
    }

    fn one(&self) -> Option<Takes> {
        Some(Takes::item(1))
    }

    fn empty(&self) -> Option<Takes> {
        Some(Takes::item(0))
    }

    fn never(&self) -> Option<Takes> {
        None
    }

    fn alone(&self, part: Option<Takes>) -> Option<Takes> {
        part
    }

    fn both(&self, below: Option<Takes>, above: Option<Takes>) -> Option<Takes> {
        both(below, above)
    }

    fn either(&self, first: Option<Takes>, second: Option<Takes>) -> Option<Takes> {
        either(first, second)
    }
}

/// What a row takes at most, where its children take so much.
pub fn of_row(row: &Row<Argument>, x: &Most, y: &Most, z: &Most) -> Most
    requires x { IsLightMost x.now }
    requires y { IsLightMost y.now }
    requires z { IsLightMost z.now }
    ensures { IsOfRow result row.now x.now y.now z.now }
{
    Most {
        sat: read(&Takings, &row.sat, x, y, z),
        dsat: read(&Takings, &row.dsat, x, y, z),
    }
}
