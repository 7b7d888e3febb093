//! What final fields have consensus run.

ghost use Rattle.std.specs.Prelude.{◌≡◌, ◌-◌, true, false, length, take, slice_get, Some, Err, option_map};
ghost use Rattle.def_spend.specs.Kinds.{is_script_hash as the_is_script_hash, is_key_hash as the_is_key_hash};
ghost use Rattle.def_verify.specs.Final.{pushed_program as the_pushed_program, final_program as the_final_program, script_execution as the_script_execution, program_execution as the_program_execution, no_execution as the_no_execution, execution_by as the_execution_by, execution_of as the_execution_of};
ghost use Rattle.ms_input.specs.Verdicts.{items_in, execution_seen};

use crate::utxo::{ScriptCode, is_key_hash, is_p2sh, is_script_hash, key_hash_script, p2sh_of};
use def_verify::Flaw;
use ms_program::program_of;

/// What is run for a spent Script with this final scriptSig and these items of the final witness, or the first flaw. Takes no
/// memory.
pub fn execution_of<'a>(
    spent: &[u8],
    script_sig: &[u8],
    items: &[&'a [u8]],
) -> Result<ScriptCode<'a>, Flaw>
    ensures { execution_seen result (items_in items.now) ≡ the_execution_of spent.now script_sig.now (items_in items.now) }
{
    let is_beside = !is_p2sh(spent) && !script_sig.is_empty();
    match final_program(spent, script_sig) {
        Some(program) => execution_by(program, is_beside, items),
        None => Err(no_execution(items)),
    }
}

/// The program of a spent Script: of P2SH what the scriptSig pushes, of any other one itself.
fn final_program<'a>(spent: &'a [u8], script_sig: &'a [u8]) -> Option<&'a [u8]>
    ensures { option_map (λ b. b.now) result ≡ the_final_program spent.entry.now script_sig.entry.now }
{
    if is_p2sh(spent) {
        pushed_program(spent, script_sig)
    } else {
        Some(spent)
    }
}

/// The redeem script of a P2SH output, where the scriptSig is the one push of it.
fn pushed_program<'a>(spent: &[u8], script_sig: &'a [u8]) -> Option<&'a [u8]>
    ensures { option_map (λ b. b.now) result ≡ the_pushed_program spent.now script_sig.entry.now }
{
    let [size, redeem @ ..] = script_sig else {
        return None;
    };
    if usize::from(*size) == redeem.len() && spent == p2sh_of(redeem).as_slice() {
        Some(redeem)
    } else {
        None
    }
}

/// The flaw of an input without a program.
fn no_execution(items: &[&[u8]]) -> Flaw
    ensures { Err result ≡ the_no_execution (items_in items.now) }
{
    if items.is_empty() {
        Flaw::OtherOutput
    } else {
        Flaw::ScriptSig
    }
}

/// What is run for a program, where a scriptSig may stand beside it.
fn execution_by<'a>(
    program: &[u8],
    is_beside: bool,
    items: &[&'a [u8]],
) -> Result<ScriptCode<'a>, Flaw>
    ensures { execution_seen result (items_in items.now) ≡ the_execution_by (Some program.now) is_beside (items_in items.now) }
{
    if !is_script_hash(program) && !is_key_hash(program) {
        return Err(Flaw::OtherOutput);
    }
    if is_beside {
        return Err(Flaw::ScriptSig);
    }
    program_execution(program, items)
}

/// What is run for a program of P2WSH or P2WPKH.
fn program_execution<'a>(program: &[u8], items: &[&'a [u8]]) -> Result<ScriptCode<'a>, Flaw>
    requires { the_is_script_hash program.now ≡ false → the_is_key_hash program.now ≡ true }
    ensures { execution_seen result (items_in items.now) ≡ the_program_execution program.now (items_in items.now) }
{
    if is_script_hash(program) {
        return script_execution(program, items);
    }
    if items.len() == 2 {
        Ok(ScriptCode::KeyHash(key_hash_script(program)))
    } else {
        Err(Flaw::ItemCount)
    }
}

/// The last item, where it has the program.
fn script_execution<'a>(program: &[u8], items: &[&'a [u8]]) -> Result<ScriptCode<'a>, Flaw>
    ensures { execution_seen result (items_in items.now)
        ≡ the_script_execution program.now (slice_get (items_in items.now) (length (items_in items.now) - 1)) (take (length (items_in items.now) - 1) (items_in items.now)) }
{
    let [.., script] = items else {
        return Err(Flaw::WrongScript);
    };
    if program == program_of(script).as_slice() {
        Ok(ScriptCode::Witness(script))
    } else {
        Err(Flaw::WrongScript)
    }
}
