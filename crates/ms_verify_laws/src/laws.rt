//! What is promised of final fields that were written.

ghost use Rattle.ms_verify_laws.specs.Again.{WrittenIsValid, WrittenIsOfGood};
ghost use Rattle.ms_verify_laws.specs.Valid.{ValidIsAccepted};

use def_verify::laws::hashes;
use ms_given_laws::laws::given;

/// Of what `finalize` writes by the good signatures, read again, each input that was Ready is valid, by the Script that it was read of; and
/// what it is satisfied with are good signatures of its map.
pub fn verified_again()
    ensures valid { WrittenIsValid }
    ensures good { WrittenIsOfGood }
{
    given();
    hashes();
}

/// Where final fields are valid, the program is that of the spent output and of the final scriptSig, and the run for it is accepted under
/// exactly the pairs that consensus takes.
pub fn valid()
    ensures accepted { ValidIsAccepted }
{}
