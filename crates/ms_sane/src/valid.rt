//! What is known of a tree before its satisfactions are counted, and its limits under given rules.
ghost use Rattle.std.specs.Prelude.{◌≡◌, Some, IfOk, IfErr};
ghost use Rattle.def_tree.specs.InRange.{IsInRange};
ghost use Rattle.def_sane.specs.Unfit.{first_unfit_valid_under, size_limit as the_size_limit, are_too_many as the_too_many};
ghost use Rattle.ms_tree.specs.Shape.{shape};
ghost use Rattle.ms_sane.specs.Place.{IsOfTree};
ghost use Rattle.ms_sane.specs.Scaffolding.Short.{IsShortOf};

use def_sane::{Rules, Unfit};
use ms_bytes::MAX_SCRIPT_SIZE;
use ms_extent::{Extent, script_extent};
use ms_tree::Tree;
use ms_types::{Base, CorrectnessType, correctness_of};

/// The most bytes of a Script that is relayed (Bitcoin Core, `MAX_STANDARD_P2WSH_SCRIPT_SIZE`).
const MOST_SIZE: u64 = 3_600;

/// The most items of a witness that is relayed, without the Script (Bitcoin Core, `MAX_STANDARD_P2WSH_STACK_ITEMS`).
const MOST_ITEMS: u64 = 100;

/// The most bytes of a Script under these rules.
fn size_limit(rules: Rules) -> u64
    ensures { result ≡ the_size_limit rules }
{
    match rules {
        Rules::Policy => MOST_SIZE,
        Rules::Consensus => MAX_SCRIPT_SIZE as u64,
    }
}

/// Whether so many items of a witness are too many under these rules. Consensus allows any number.
pub fn are_too_many(items: u64, rules: Rules) -> bool
    ensures { result ≡ the_too_many rules items }
{
    match rules {
        Rules::Policy => items > MOST_ITEMS,
        Rules::Consensus => false,
    }
}

/// What is known of a tree before its satisfactions are counted: its type, and what its Script comes to.
#[derive(Clone, Copy)]
pub struct Short {
    /// The correctness type.
    pub ty: CorrectnessType,
    /// The length and the opcodes of the Script.
    pub extent: Extent,
}

/// What is known of a tree before its satisfactions are counted, or the first reason against it of those that ask for no
/// more: a requirement of its type that is false, a top that isn't B, or a Script that is too large under these rules. It
/// takes no working room.
#[tactic(auto, using(def_sane::proofs::TheLimits::as_computed))]
pub fn find_short(tree: &Tree<'_>, rules: Rules) -> Result<Short, Unfit>
    requires { IsInRange (shape tree.now) }
    ensures short { IfOk result (IsShortOf rules (shape tree.now)) }
    ensures unfit { IfErr result (λ unfit. first_unfit_valid_under rules (shape tree.now) ≡ Some unfit) }
    ensures place { IfErr result (IsOfTree (shape tree.now)) }
{
    let ty = match correctness_of(tree) {
        Ok(ty) => ty,
        Err(at) => return Err(Unfit::Rule(at)),
    };
    let Base::B = ty.base else {
        return Err(Unfit::TopNotB);
    };
    let extent = script_extent(tree);
    if extent.bytes > size_limit(rules) {
        return Err(Unfit::Size(extent.bytes));
    }
    Ok(Short { ty, extent })
}
