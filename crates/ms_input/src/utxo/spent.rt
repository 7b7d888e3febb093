//! What an input spends.

ghost use Rattle.std.specs.Prelude.{◌≡◌};
ghost use Rattle.def_spend.specs.Input.{Spend};
ghost use Rattle.def_spend.specs.Kinds.{kind_of};
ghost use Rattle.def_spend.specs.Reading.{script_code as the_script_code};
ghost use Rattle.def_spend.specs.Utxo.{utxo_of as the_utxo_of, amount_of};
ghost use Rattle.ms_input.specs.Spending.{amount_seen, code_found, IsSpending};

use crate::fields::Fields;
use crate::utxo::amount::Amount;
use crate::utxo::code::ScriptCode;
use crate::utxo::program::{is_nested, kind_with, program_of_utxo};
use crate::utxo::script::script_code;
use crate::utxo::utxo_of;
use def_spend::{Kind, State};
use ms_transaction::InputRef;

/// What an input spends.
#[derive(Drop)]
pub struct Spent<'a> {
    /// The amount of the output.
    pub amount: Amount,
    /// The kind of the output.
    pub kind: Kind,
    /// The Script that the input has to satisfy, or the state of an input of which none is read.
    pub script: Result<ScriptCode<'a>, State>,
}

/// What an input spends, by the fields of its map: the amount and the kind of its output, and the Script that it demands, or the
/// first state that says why none is read. Takes no memory, and hashes what the map holds of the previous transaction.
pub fn spending<'a>(input: &InputRef<'_>, fields: &Fields<'a>) -> Spent<'a>
    ensures amount { (spend : Spend) → IsSpending spend input.now fields.now → amount_seen result.amount ≡ amount_of (the_utxo_of spend.input.outpoint spend.fields) }
    ensures kind { (spend : Spend) → IsSpending spend input.now fields.now → result.kind ≡ kind_of spend }
    ensures script { (spend : Spend) → IsSpending spend input.now fields.now → code_found result.script ≡ the_script_code spend }
{
    let utxo = utxo_of(input, fields);
    let program = program_of_utxo(&utxo, fields.redeem());
    Spent {
        amount: utxo.amount(),
        kind: kind_with(is_nested(&utxo), program),
        script: script_code(program, fields),
    }
}
