//! Examples of the definitions: the body does nothing, and its contract is the examples.

ghost use Rattle.def_update.specs.Examples.{BelongsToInput, BelongsToOutput, RedeemScript, GoesBehind, AgainTheSame, FinalStays, BarsAnother};

/// What PSBTs are updated to, and what bars it.
pub fn updates()
    ensures input { BelongsToInput }
    ensures output { BelongsToOutput }
    ensures redeem { RedeemScript }
    ensures behind { GoesBehind }
    ensures again { AgainTheSame }
    ensures same { FinalStays }
    ensures barred { BarsAnother }
{}
