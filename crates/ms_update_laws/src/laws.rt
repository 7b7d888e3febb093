//! What is promised of PSBTs that were updated.

ghost use Rattle.ms_update_laws.specs.Updated.{IsReadAgain, LosesNothing, HoldsWhatBelongs, StaysUpdated};

use def_psbt::laws::psbts;

/// What was updated is read again; it has the transaction and the global map that it had, and in each map the pairs that stood there and,
/// behind them, those that belong and didn't; each pair that belongs to a map stands there with its value; updated once more it stays as it is.
pub fn updated()
    ensures read { IsReadAgain }
    ensures kept { LosesNothing }
    ensures holds { HoldsWhatBelongs }
    ensures again { StaysUpdated }
{
    psbts();
}
