//! What is promised of PSBTs.

ghost use Rattle.ms_psbt_laws.specs.Existence.{EachHasAnswer, EachIsRead};
ghost use Rattle.ms_psbt_laws.specs.Written.{WrittenIsRead, ReadyIsMadeFinal, ReportIsSource, AnsweredAgain};
ghost use Rattle.ms_psbt_laws.specs.Alone.{MapDecidesAlone};
ghost use Rattle.ms_psbt_laws.specs.Agreeing.{VersionsAgree};
ghost use Rattle.ms_psbt_laws.specs.Network.{NetworkIsRead, IdStays, IdIsTold, FinalIdStays};

use def_psbt::laws::psbts;
use ms_given_laws::laws::given;

/// Every list of words and every source of bytes have an answer, and each input a reading.
pub fn existence()
    ensures answer { EachHasAnswer }
    ensures reading { EachIsRead }
{
    given();
}

/// What `finalize` writes is read again, with nothing lost, and `finalize` answers to it as before; and each Ready input is
/// written with its witness.
pub fn written()
    ensures bytes { WrittenIsRead }
    ensures ready { ReadyIsMadeFinal }
    ensures source { ReportIsSource }
    ensures again { AnsweredAgain }
{
    psbts();
    given();
}

/// The state of an input, its witness, its hashes and its lines depend on its map, the transaction and its number alone.
pub fn alone()
    ensures map { MapDecidesAlone }
{}

/// The versions agree: two PSBTs of one transaction, whose inputs differ at most in fields of version 2, have the same answers to
/// all commands but `finalize` and `combine`.
pub fn versions()
    ensures agree { VersionsAgree }
{}

/// What `extract` writes is read again, with each final scriptSig and each final witness, and has the same id where no
/// final scriptSig has a byte. Its id is the final one that `inspect` tells, also before `finalize`.
pub fn network()
    ensures read { NetworkIsRead }
    ensures id { IdStays }
    ensures told { IdIsTold }
    ensures before { FinalIdStays }
{
    given();
}
