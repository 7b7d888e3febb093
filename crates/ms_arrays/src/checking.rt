//! Why signatures with their keys are refused.
ghost use Rattle.std.specs.Prelude.{◌^◌, ◌<◌, length};
ghost use Rattle.ms_assets.specs.Parts.{first, Reads};
ghost use Rattle.ms_arrays.specs.ArrayAssets.{pair_refusals};

use def_files::Format;
use ms_assets::{AssetFault, check_keys, check_repeats, check_signatures};
use ms_oracle::SigPair;

/// Refuses a key that hasn't its form, a signature that hasn't its length, or a pair that stands twice: the first of these
/// kinds, and of its kind the first.
pub fn check_pairs(pairs: &[SigPair]) -> Result<(), AssetFault>
    requires { length pairs.now < 2 ^ 32 }
    ensures { Reads (first (pair_refusals pairs.now)) (λ unit. unit) tt result }
{
    check_keys(pairs)?;
    check_signatures(pairs)?;
    check_repeats(Format::Two, pairs)
}
