//! What is promised of PSBTs that were combined.

ghost use Rattle.ms_combine_laws.specs.Combined.{IsReadAgain, HasSameTransaction, HasSameKeys, OneIsItself, HoldsEachPart, GoesOn};

use def_psbt::laws::psbts;
use ms_given_laws::laws::given;

/// What was combined is read again; it has the version and the transaction of each part, and in each map exactly the keys of some
/// part; a part alone is itself; combined again with a part behind it stays the same, and some of the first parts may be combined
/// first.
pub fn combined()
    ensures read { IsReadAgain }
    ensures transaction { HasSameTransaction }
    ensures keys { HasSameKeys }
    ensures alone { OneIsItself }
    ensures again { HoldsEachPart }
    ensures first { GoesOn }
{
    psbts();
    given();
}
