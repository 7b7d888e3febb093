//! The least weights of canonical satisfactions and dissatisfactions, without memory.
ghost use Rattle.std.specs.Prelude.{◌≡◌, reverse};
ghost use Rattle.std.specs.Option.{option_map};
ghost use Rattle.def_script.specs.Witness.{weight};
ghost use Rattle.def_satisfaction.specs.Satisfaction.{Sat, Dsat};
ghost use Rattle.def_choice.specs.Cheapest.{cheapest};
ghost use Rattle.def_choice.specs.Dissatisfaction.{dissatisfaction};
ghost use Rattle.ms_sane.specs.Same.{IsSame};
ghost use Rattle.ms_sat.specs.Least.{IsLeastWeight};
ghost use Rattle.ms_tree.specs.Shape.{shape};

use ms_choice::Costs;
use ms_chosen::least_costs;
use ms_held::Assets;
use ms_sane::ValidTree;

/// The least weight of a canonical satisfaction of a valid tree with these assets, and of a canonical
/// dissatisfaction, each `None` where there is none. Takes no memory.
pub fn costs(valid: &mut ValidTree<'_>, assets: &Assets) -> Costs
    ensures sat { result.sat ≡ option_map weight (cheapest (shape valid.old.tree) assets.now) }
    ensures dsat { result.dsat ≡ option_map weight (option_map reverse (dissatisfaction (shape valid.old.tree))) }
    ensures least_sat { IsLeastWeight (Sat (shape valid.old.tree) assets.now) result.sat }
    ensures least_dsat { IsLeastWeight (Dsat (shape valid.old.tree) assets.now) result.dsat }
    ensures same { IsSame valid.old valid.new }
{
    assets.are_assets();
    let tree = valid.tree;
    least_costs(&tree, assets, &mut valid.work)
}
