//! The Script of an input, and its scriptSig.

ghost use Rattle.std.specs.Prelude.{◌≡◌, ◌<◌, length, IfOk, option_map};
ghost use Rattle.def_spend.specs.Hashes.{script_or_none as the_script_or_none};
ghost use Rattle.def_spend.specs.Kinds.{pushed as the_pushed, script_sig_by as the_script_sig_by, ends_in_script as the_ends_in_script};
ghost use Rattle.ms_input.specs.Spending.{code_seen, code_found};

use crate::utxo::ScriptCode;
use def_spend::{Kind, State};
use std::alloc::{AllocError, Global};

/// The Script that was found, or no byte where there is none.
pub fn script_or_none<'a>(script: &Result<ScriptCode<'a>, State>) -> ScriptCode<'a>
    ensures { code_seen result ≡ the_script_or_none (code_found script.now) }
{
    match script {
        Ok(script) => *script,
        Err(_) => ScriptCode::Witness(&[]),
    }
}

/// The scriptSig of an output of this kind, with this redeem script, where it is known. Refuses for want of memory alone.
pub fn script_sig_by(
    alloc: Global,
    kind: Kind,
    redeem: &[u8],
) -> Result<Option<Vec<u8>>, AllocError>
    requires script { kind ≡ Kind.P2shP2wsh → length redeem.now < 76 }
    requires key { kind ≡ Kind.P2shP2wpkh → length redeem.now < 76 }
    ensures { IfOk result (λ found. option_map (λ v. v.items) found ≡ the_script_sig_by kind redeem.now) }
{
    match kind {
        Kind::P2shP2wsh => Ok(Some(pushed(alloc, redeem)?)),
        Kind::P2shP2wpkh => Ok(Some(pushed(alloc, redeem)?)),
        Kind::P2wsh | Kind::P2wpkh => Ok(Some(Vec::new(alloc))),
        Kind::Other => Ok(None),
    }
}

/// Whether the witness that spends an output of this kind ends in a Script.
pub fn ends_in_script(kind: Kind) -> bool
    ensures { result ≡ the_ends_in_script kind }
{
    matches!(kind, Kind::P2wsh | Kind::P2shP2wsh)
}

/// A copy of bytes. Refuses for want of memory alone.
pub fn copied(alloc: Global, bytes: &[u8]) -> Result<Vec<u8>, AllocError>
    ensures { IfOk result (λ out. out.items ≡ bytes.now) }
{
    let mut out = Vec::with_capacity(alloc, bytes.len())?;
    out.extend_from_slice(bytes)?;
    Ok(out)
}

/// The one push of a string: its length, and then it. Refuses for want of memory alone.
fn pushed(alloc: Global, bytes: &[u8]) -> Result<Vec<u8>, AllocError>
    requires { length bytes.now < 76 }
    ensures { IfOk result (λ out. out.items ≡ the_pushed bytes.now) }
{
    let mut out = Vec::with_capacity(alloc, 1 + bytes.len())?;
    out.push(bytes.len() as u8)?;
    out.extend_from_slice(bytes)?;
    Ok(out)
}
