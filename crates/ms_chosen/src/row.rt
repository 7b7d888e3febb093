//! What a row of the satisfaction table weighs.
ghost use Rattle.std.specs.Prelude.{ℕ, Option};
ghost use Rattle.ms_choice.specs.Numbers.{IsLight, IsLightOption};
ghost use Rattle.ms_chosen.specs.Scaffolding.Costs.{weights, IsOfRow};

use crate::cost::{both, least};
use crate::weigh::of_item;
use ms_choice::Costs;
use ms_rows::{Argument, Reading, Row, read};

/// Reads rows by least weights.
struct Weights;

impl Reading for Weights {
    type Child = Costs;

    type Value = Option<u64>;

    ghost Meaning = { Option ℕ };

    ghost meaning = { λ weight. weight };

    ghost reader = { λ _. weights };

    ghost IsKnown = { IsLight };

    ghost IsPart = { IsLightOption };

    fn sat(&self, child: &Costs) -> Option<u64> {
        child.sat
    }

    fn dsat(&self, child: &Costs) -> Option<u64> {
        child.dsat
    }

    fn one(&self) -> Option<u64> {
        Some(of_item(&[1]))
    }

    fn empty(&self) -> Option<u64> {
        Some(of_item(&[]))
    }

    fn never(&self) -> Option<u64> {
        None
    }

    fn alone(&self, part: Option<u64>) -> Option<u64> {
        part
    }

    fn both(&self, below: Option<u64>, above: Option<u64>) -> Option<u64> {
        both(below, above)
    }

    fn either(&self, first: Option<u64>, second: Option<u64>) -> Option<u64> {
        least(first, second)
    }
}

/// The least weights of a row, where its children weigh so much.
pub fn of_row(row: &Row<Argument>, x: &Costs, y: &Costs, z: &Costs) -> Costs
    requires x { IsLight x.now }
    requires y { IsLight y.now }
    requires z { IsLight z.now }
    ensures { IsOfRow result row.now x.now y.now z.now }
{
    Costs {
        sat: read(&Weights, &row.sat, x, y, z),
        dsat: read(&Weights, &row.dsat, x, y, z),
    }
}
