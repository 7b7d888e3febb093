//! What is promised of the inputs of a PSBT.

ghost use Rattle.ms_spend_laws.specs.Tried.{ReadyExactly, UnsatisfiedExactly};
ghost use Rattle.ms_spend_laws.specs.KeyHash.{KeyHashIsPkh, KeyHashIsReadAsPkh, PkhStack};
ghost use Rattle.ms_spend_laws.specs.Ready.{
  ReadyIsCanonical,
  ReadyHasWitness,
  ReadyIsAccepted,
  ReadyIsUnchangeable,
  ReadyIsTight,
  ReadyIsLightest,
};
ghost use Rattle.ms_spend_laws.specs.Unsatisfied.{UnsatisfiedHasNothing};
ghost use Rattle.ms_spend_laws.specs.Planned.{NoPlanIsVain, PlanMakesReady, ReadingStays};
ghost use Rattle.ms_spend_laws.specs.Verified.{
  GoodIsTaken,
  ReadyIsAcceptedByConsensus,
  AllGoodIsSame,
  StatesDiffer,
};

use def_verify::laws::hashes;
use ms_given_laws::laws::given;

/// An input is Ready exactly where its map makes a canonical satisfaction of a sane miniscript, and Unsatisfied exactly
/// where it makes none.
pub fn tried()
    ensures ready { ReadyExactly }
    ensures unsatisfied { UnsatisfiedExactly }
{
    given();
}

/// The Script of P2WPKH is read as `pkh` of its key alone, and what satisfies that is a signature and the key.
pub fn key_hash()
    ensures script { KeyHashIsPkh }
    ensures reading { KeyHashIsReadAsPkh }
    ensures stack { PkhStack }
{}

/// The witness of a Ready input is a canonical satisfaction with the witness script, the interpreter accepts it, and nobody
/// can change it.
pub fn ready()
    ensures canonical { ReadyIsCanonical }
    ensures witness { ReadyHasWitness }
    ensures accepted { ReadyIsAccepted }
    ensures unchangeable { ReadyIsUnchangeable }
    ensures tight { ReadyIsTight }
    ensures lightest { ReadyIsLightest }
{
    given();
}

/// An Unsatisfied input has nothing that would be accepted. The signatures that its plan asks for make it Ready, and leave
/// what it is read as; and where it has no plan, none do.
pub fn unsatisfied()
    ensures nothing { UnsatisfiedHasNothing }
    ensures no_plan { NoPlanIsVain }
    ensures plan { PlanMakesReady }
    ensures reading { ReadingStays }
{
    given();
}

/// Where the good signatures of an input count, consensus takes each of them by its own check, so that its interpreter accepts the
/// witness of a Ready input. Where each signature is good, it is the same whether all count or the good ones; and where the states
/// differ, it is Ready with all, and Unsatisfied with the good ones.
pub fn verified()
    ensures taken { GoodIsTaken }
    ensures accepted { ReadyIsAcceptedByConsensus }
    ensures all_good { AllGoodIsSame }
    ensures differ { StatesDiffer }
{
    given();
    hashes();
}
