//! What is promised of every PSBT that a source of bytes gives.

ghost use Rattle.ms_given_laws.specs.Given.{EachIsSound, EachHasKeys, EachHasAssets};

use def_psbt::laws::psbts;

/// A PSBT that a source of bytes gives has nothing wrong and consists of bytes; and what each of its maps holds are keys,
/// signatures, preimages and locks.
pub fn given()
    ensures sound { EachIsSound }
    ensures keys { EachHasKeys }
    ensures assets { EachHasAssets }
{
    psbts();
}
