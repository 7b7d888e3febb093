//! The program that guards a spent output, and the output's kind.

ghost use Rattle.std.specs.Prelude.{◌≡◌, length, option_map};
ghost use Rattle.def_spend.specs.Kinds.{is_p2sh as the_is_p2sh, p2sh_of as the_p2sh_of, redeemed as the_redeemed, program_in as the_program_in, program_of_utxo as the_program_of_utxo, is_nested as the_is_nested, is_script_hash as the_is_script_hash, is_key_hash as the_is_key_hash, kind_by as the_kind_by, kind_with as the_kind_with};
ghost use Rattle.def_spend.specs.Reading.{key_hash_script as the_key_hash_script};
ghost use Rattle.ms_input.specs.Spending.{script_seen, utxo_seen};

use crate::utxo::Utxo;
use def_spend::{Kind, State};
use ms_hash::hash160;

/// The program of an output, with the redeem script that the map has, or the state of an input that has none.
pub fn program_of_utxo<'a>(utxo: &Utxo<'a>, redeem: Option<&'a [u8]>) -> Result<&'a [u8], State>
    ensures { script_seen result ≡ the_program_of_utxo (utxo_seen utxo.now) (option_map (λ b. b.now) redeem.entry) }
{
    match utxo {
        Utxo::None => Err(State::NoUtxo),
        Utxo::Wrong => Err(State::WrongUtxo),
        Utxo::Proved(output) | Utxo::Claimed(output) => program_in(output.script(), redeem),
    }
}

/// Whether an output is known to be P2SH.
pub fn is_nested(utxo: &Utxo<'_>) -> bool
    ensures { result ≡ the_is_nested (utxo_seen utxo.now) }
{
    match utxo {
        Utxo::None | Utxo::Wrong => false,
        Utxo::Proved(output) | Utxo::Claimed(output) => is_p2sh(output.script()),
    }
}

/// The kind of an output that is P2SH or isn't, by its program, or the state of an input that has none.
pub fn kind_with(is_nested: bool, program: Result<&[u8], State>) -> Kind
    ensures { result ≡ the_kind_with is_nested (script_seen program.entry) }
{
    match program {
        Ok(program) => kind_by(is_nested, program),
        Err(_) => Kind::Other,
    }
}

/// The kind of a program, in P2SH or by itself.
fn kind_by(is_nested: bool, program: &[u8]) -> Kind
    ensures { result ≡ the_kind_by is_nested program.now }
{
    if is_script_hash(program) {
        if is_nested {
            Kind::P2shP2wsh
        } else {
            Kind::P2wsh
        }
    } else if is_key_hash(program) {
        if is_nested {
            Kind::P2shP2wpkh
        } else {
            Kind::P2wpkh
        }
    } else {
        Kind::Other
    }
}

/// Whether a program is version 0 and 32 bytes. Takes no memory.
pub fn is_script_hash(program: &[u8]) -> bool
    ensures { result ≡ the_is_script_hash program.now }
{
    program.len() == 34 && program[0] == 0x00 && program[1] == 0x20
}

/// Whether a program is version 0 and 20 bytes. Takes no memory.
pub fn is_key_hash(program: &[u8]) -> bool
    ensures { result ≡ the_is_key_hash program.now }
{
    program.len() == 22 && program[0] == 0x00 && program[1] == 0x14
}

/// The Script of a program that has the HASH160 of a public key: DUP, HASH160, a push of these 20 bytes, EQUALVERIFY, CHECKSIG. It
/// demands that the program has 22 bytes. Takes no memory.
pub fn key_hash_script(program: &[u8]) -> [u8; 25]
    requires { length program.now ≡ 22 }
    ensures { result ≡ the_key_hash_script program.now }
{
    let mut script = [0x88; 25];
    script[0] = 0x76;
    script[1] = 0xa9;
    script[2] = 0x14;
    script[3..23].copy_from_slice(&program[2..22]);
    script[24] = 0xac;
    script
}

/// The program of a spent Script: of P2SH the redeem script, of any other one itself.
fn program_in<'a>(spent: &'a [u8], redeem: Option<&'a [u8]>) -> Result<&'a [u8], State>
    ensures { script_seen result ≡ the_program_in spent.entry.now (option_map (λ b. b.now) redeem.entry) }
{
    if is_p2sh(spent) {
        redeemed(spent, redeem)
    } else {
        Ok(spent)
    }
}

/// The redeem script of a P2SH output, where its hash is that of the output.
fn redeemed<'a>(spent: &[u8], redeem: Option<&'a [u8]>) -> Result<&'a [u8], State>
    ensures { script_seen result ≡ the_redeemed spent.now (option_map (λ b. b.now) redeem.entry) }
{
    let Some(redeem) = redeem else {
        return Err(State::NoScript);
    };
    if spent == p2sh_of(redeem).as_slice() {
        Ok(redeem)
    } else {
        Err(State::WrongScript)
    }
}

/// Whether a Script is HASH160, a push of 20 bytes, EQUAL. Takes no memory.
pub fn is_p2sh(script: &[u8]) -> bool
    ensures { result ≡ the_is_p2sh script.now }
{
    script.len() == 23 && script[0] == 0xa9 && script[1] == 0x14 && script[22] == 0x87
}

/// The Script of the P2SH output of a redeem script. Takes no memory.
pub fn p2sh_of(redeem: &[u8]) -> [u8; 23]
    ensures { result ≡ the_p2sh_of redeem.now }
{
    let mut script = [0x87; 23];
    script[0] = 0xa9;
    script[1] = 0x14;
    script[2..22].copy_from_slice(&hash160(redeem));
    script
}
