//! The Script that an input has to satisfy.

ghost use Rattle.std.specs.Prelude.{◌≡◌, option_map};
ghost use Rattle.def_spend.specs.Reading.{script_for as the_script_for, script_of_program as the_script_of_program};
ghost use Rattle.ms_input.specs.Spending.{script_seen, code_found};
ghost use Rattle.ms_input.specs.Scaffolding.Utxos.{script_held};

use crate::fields::Fields;
use crate::utxo::code::ScriptCode;
use crate::utxo::program::{is_key_hash, is_script_hash, key_hash_script};
use def_spend::State;
use ms_program::program_of;

/// The Script of an input whose output has this program, or the state of one that has none.
pub fn script_code<'a>(
    program: Result<&[u8], State>,
    fields: &Fields<'a>,
) -> Result<ScriptCode<'a>, State>
    ensures { code_found result ≡ script_held (script_seen program.entry) fields.now }
{
    if fields.is_final() {
        return Err(State::Final);
    }
    match program {
        Ok(program) => script_of_program(program, fields.script()),
        Err(state) => Err(state),
    }
}

/// The Script of a program.
fn script_of_program<'a>(program: &[u8], script: Option<&'a [u8]>) -> Result<ScriptCode<'a>, State>
    ensures { code_found result ≡ the_script_of_program program.now (option_map (λ b. b.now) script.entry) }
{
    if is_script_hash(program) {
        Ok(ScriptCode::Witness(script_for(program, script)?))
    } else if is_key_hash(program) {
        Ok(ScriptCode::KeyHash(key_hash_script(program)))
    } else {
        Err(State::OtherOutput)
    }
}

/// The witness script of a program.
fn script_for<'a>(program: &[u8], script: Option<&'a [u8]>) -> Result<&'a [u8], State>
    ensures { script_seen result ≡ the_script_for program.now (option_map (λ b. b.now) script.entry) }
{
    let Some(script) = script else {
        return Err(State::NoScript);
    };
    if program == program_of(script).as_slice() {
        Ok(script)
    } else {
        Err(State::WrongScript)
    }
}
